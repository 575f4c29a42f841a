//! A run on the list of two coordinates, with M = 3: its points by hand, and what its calls are refused with.
use base::faults::Numbers;
use fields::bit::BitField;
use orders::plain::PlainOrder;
use run::run::Run;
use scramblers::none::NoScrambler;
use std::test::Fail;
use tables::sobol::sobol_table;

// A coordinate of degree 0, and the polynomial 11 with 1, 3, 7. In `examples` too: no crate can use a module of a program.
const GOOD: &[u8; 40] =
    b"\0\0\x01\0\0\0\0\0\0\0\0\0\0\0\0\0\0\0\0\0\x03\0\x0b\0\x01\0\x03\0\x07\0\0\0\0\0\0\0\0\0\0\0";

#[test]
fn points_and_changed_digits(rt: HostRuntime) -> Result<(), Fail> {
    let mut run = Run::new(BitField, PlainOrder::new(2, 3)?, NoScrambler::new(2, 3, 2)?);
    run.start(GOOD, 3)?;
    // The second coordinate is that of polynomial 11; counting in binary changes 1, 2, 1, 3, .. digits.
    let expected = [
        (0u32, 0u32, 1u8),
        (4, 4, 2),
        (2, 6, 1),
        (6, 2, 3),
        (1, 7, 1),
        (5, 3, 2),
        (3, 1, 1),
        (7, 5, 0),
    ];
    for (position, (first, second, digits)) in expected.iter().enumerate() {
        let mut out = [9u32; 2];
        let (handed, changed) = run.step(&mut out)?;
        assert_eq!(rt; handed, position as u64);
        assert_eq!(rt; changed, *digits);
        assert_eq!(rt; out[0], *first);
        assert_eq!(rt; out[1], *second);
    }
    assert_eq!(rt;
        run.step(&mut [9; 2]).err().map(Numbers::from),
        Some(Numbers(21, 3, 255, 0))
    );
    let mut out = [9u32; 2];
    run.at(5, &mut out)?;
    assert_eq!(rt; out[1], 3);
    run.jump(6)?;
    run.step(&mut out)?;
    assert_eq!(rt; out[1], 1);
    Ok(())
}

#[test]
fn refused_calls(rt: HostRuntime) -> Result<(), Fail> {
    let mut run = Run::new(BitField, PlainOrder::new(2, 3)?, NoScrambler::new(2, 3, 2)?);
    assert_eq!(rt;
        run.step(&mut [9; 2]).err().map(Numbers::from),
        Some(Numbers(20, 3, 255, 0))
    );
    assert_eq!(rt;
        run.jump(0).err().map(Numbers::from),
        Some(Numbers(20, 3, 255, 0))
    );
    assert_eq!(rt;
        run.at(0, &mut [9; 2]).err().map(Numbers::from),
        Some(Numbers(20, 3, 255, 0))
    );
    assert_eq!(rt;
        run.verdict(0).err().map(Numbers::from),
        Some(Numbers(20, 3, 255, 0))
    );
    assert_eq!(rt;
        run.start(&[0; 19], 3).err().map(Numbers::from),
        Some(Numbers(3, 1, 255, 0))
    );
    assert_eq!(rt;
        run.start(GOOD, 4).err().map(Numbers::from),
        Some(Numbers(9, 3, 255, 0))
    );
    assert_eq!(rt;
        run.open(&sobol_table(GOOD, 4)?).err().map(Numbers::from),
        Some(Numbers(9, 3, 255, 0))
    );
    run.start(GOOD, 3)?;
    assert_eq!(rt;
        run.step(&mut [9; 3]).err().map(Numbers::from),
        Some(Numbers(3, 3, 255, 0))
    );
    assert_eq!(rt;
        run.at(8, &mut [9; 3]).err().map(Numbers::from),
        Some(Numbers(3, 3, 255, 0))
    );
    assert_eq!(rt;
        run.at(8, &mut [9; 2]).err().map(Numbers::from),
        Some(Numbers(8, 3, 255, 0))
    );
    assert_eq!(rt;
        run.jump(8).err().map(Numbers::from),
        Some(Numbers(8, 3, 255, 0))
    );
    assert_eq!(rt;
        run.verdict(4).err().map(Numbers::from),
        Some(Numbers(8, 3, 255, 0))
    );
    Ok(())
}
