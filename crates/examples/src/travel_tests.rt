//! Travel scaling: what is written and what is refused. Expected numbers are worked out by hand.
use base::faults::Numbers;
use checks::travel::{Travel, settings};
use std::test::Fail;

const FULL: Travel = Travel {
    low: 0,
    span: 65536,
};

#[test]
fn settings_written(rt: HostRuntime) -> Result<(), Fail> {
    let mut out = [0u16; 2];
    settings(
        2,
        3,
        2,
        &[7, 4],
        &[Travel { low: 10, span: 100 }, FULL],
        &mut out,
    )?;
    assert_eq!(rt; out[0], 97);
    assert_eq!(rt; out[1], 32768);
    // 3^20 - 1 of 3^20 positions: nothing wraps.
    let mut last = [0u16];
    settings(3, 20, 1, &[3486784400], &[FULL], &mut last)?;
    assert_eq!(rt; last[0], 65535);
    Ok(())
}

#[test]
fn settings_refused_in_order(rt: HostRuntime) -> Result<(), Fail> {
    let mut out = [5u16];
    let none = Travel { low: 0, span: 0 };
    assert_eq!(rt;
        settings(2, 3, 1, &[8], &[FULL], &mut out)
            .err()
            .map(Numbers::from),
        Some(Numbers(7, 5, 255, 0))
    );
    assert_eq!(rt;
        settings(2, 33, 1, &[8, 8], &[none], &mut out)
            .err()
            .map(Numbers::from),
        Some(Numbers(2, 5, 255, 0))
    );
    assert_eq!(rt;
        settings(2, 3, 9, &[8, 8], &[none], &mut out)
            .err()
            .map(Numbers::from),
        Some(Numbers(2, 5, 255, 0))
    );
    assert_eq!(rt;
        settings(2, 3, 1, &[8, 8], &[none], &mut out)
            .err()
            .map(Numbers::from),
        Some(Numbers(3, 5, 255, 0))
    );
    assert_eq!(rt;
        settings(2, 3, 1, &[8], &[none, FULL], &mut out)
            .err()
            .map(Numbers::from),
        Some(Numbers(3, 5, 255, 0))
    );
    assert_eq!(rt; out[0], 5);
    Ok(())
}

#[test]
fn numerators_before_spans(rt: HostRuntime) -> Result<(), Fail> {
    let mut out = [5u16];
    let none = Travel { low: 0, span: 0 };
    let too_far = Travel {
        low: 1,
        span: 65536,
    };
    assert_eq!(rt;
        settings(2, 3, 1, &[8], &[none], &mut out)
            .err()
            .map(Numbers::from),
        Some(Numbers(7, 5, 255, 0))
    );
    assert_eq!(rt;
        settings(2, 3, 1, &[7], &[none], &mut out)
            .err()
            .map(Numbers::from),
        Some(Numbers(8, 5, 255, 0))
    );
    assert_eq!(rt;
        settings(2, 3, 1, &[7], &[too_far], &mut out)
            .err()
            .map(Numbers::from),
        Some(Numbers(8, 5, 255, 0))
    );
    assert_eq!(rt; out[0], 5);
    Ok(())
}
