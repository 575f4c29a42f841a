//! Fields, orders, scramblers and Faure tables: what is made and what is refused. Expected numbers are worked out by hand.
use base::faults::Numbers;
use fields::bit::BitField;
use fields::field::Field;
use fields::four::FourField;
use fields::prime::PrimeField;
use orders::gray::GrayOrder;
use orders::order::Order;
use orders::plain::PlainOrder;
use orders::shifted::ShiftedOrder;
use scramblers::chain::ChainScrambler;
use scramblers::keyed::KeyedScrambler;
use scramblers::linear::LinearScrambler;
use scramblers::none::NoScrambler;
use scramblers::scrambler::Scrambler;
use scramblers::shift::ShiftScrambler;
use std::test::Fail;
use tables::faure::faure_table;

#[test]
fn prime_fields(rt: HostRuntime) -> Result<(), Fail> {
    for q in [0u8, 1, 4, 6, 8, 9, 10, 12, 14, 15, 16, 17] {
        assert_eq!(rt;
            PrimeField::new(q).err().map(Numbers::from),
            Some(Numbers(1, 6, 255, 0))
        );
    }
    let seven = PrimeField::new(7)?;
    assert_eq!(rt; seven.inverse(3), Some(5));
    assert_eq!(rt; seven.inverse(0), None);
    assert_eq!(rt; seven.inverse(7), None);
    assert_eq!(rt; seven.mul(5, 6), 2);
    assert_eq!(rt; seven.mul(7, 1), 0);
    assert_eq!(rt; seven.neg(2), 5);
    Ok(())
}

#[test]
fn bits_and_four(rt: HostRuntime) {
    assert_eq!(rt; BitField.add(1, 1), 0);
    assert_eq!(rt; BitField.inverse(1), Some(1));
    assert_eq!(rt; BitField.inverse(2), None);
    assert_eq!(rt; FourField.mul(2, 2), 3);
    assert_eq!(rt; FourField.mul(2, 3), 1);
    assert_eq!(rt; FourField.mul(3, 3), 2);
    assert_eq!(rt; FourField.inverse(2), Some(3));
    assert_eq!(rt; FourField.add(4, 1), 0);
}

#[test]
fn orders_made_and_refused(rt: HostRuntime) -> Result<(), Fail> {
    assert!(rt; PlainOrder::new(3, 20).is_ok());
    assert_eq!(rt;
        PlainOrder::new(3, 21).err().map(Numbers::from),
        Some(Numbers(2, 6, 255, 0))
    );
    assert_eq!(rt;
        GrayOrder::new(17, 1).err().map(Numbers::from),
        Some(Numbers(2, 6, 255, 0))
    );
    assert_eq!(rt;
        GrayOrder::new(2, 0).err().map(Numbers::from),
        Some(Numbers(2, 6, 255, 0))
    );
    assert_eq!(rt;
        ShiftedOrder::new(3, 21, &[9]).err().map(Numbers::from),
        Some(Numbers(2, 6, 255, 0))
    );
    assert_eq!(rt;
        ShiftedOrder::new(3, 2, &[9]).err().map(Numbers::from),
        Some(Numbers(3, 6, 255, 0))
    );
    assert_eq!(rt;
        ShiftedOrder::new(3, 2, &[2, 3]).err().map(Numbers::from),
        Some(Numbers(7, 6, 255, 1))
    );
    // The digits 0 and 1 of position 4 give (0 - 1) mod 4 = 3, and not 1 as in the field of four.
    let gray = GrayOrder::new(4, 2)?;
    assert_eq!(rt; gray.index(4), 7);
    assert_eq!(rt; gray.index(16), 16);
    assert_eq!(rt; ShiftedOrder::new(3, 2, &[2, 1])?.index(7), 0);
    Ok(())
}

#[test]
fn scramblers_made_and_refused(rt: HostRuntime) -> Result<(), Fail> {
    assert_eq!(rt;
        NoScrambler::new(2, 33, 1).err().map(Numbers::from),
        Some(Numbers(2, 6, 255, 0))
    );
    assert_eq!(rt;
        KeyedScrambler::new(2, 2, 9, 0).err().map(Numbers::from),
        Some(Numbers(2, 6, 255, 0))
    );
    assert_eq!(rt;
        ShiftScrambler::new(2, 2, 2, &[0, 1, 1])
            .err()
            .map(Numbers::from),
        Some(Numbers(3, 6, 255, 0))
    );
    assert_eq!(rt;
        ShiftScrambler::new(2, 2, 1, &[0, 2])
            .err()
            .map(Numbers::from),
        Some(Numbers(7, 6, 255, 1))
    );
    let bits = BitField;
    assert_eq!(rt;
        LinearScrambler::new(bits, 2, 1, &[1, 0, 1])
            .err()
            .map(Numbers::from),
        Some(Numbers(3, 6, 255, 0))
    );
    assert_eq!(rt;
        LinearScrambler::new(bits, 2, 1, &[1, 0, 1, 0])
            .err()
            .map(Numbers::from),
        Some(Numbers(7, 6, 255, 3))
    );
    assert_eq!(rt;
        LinearScrambler::new(bits, 2, 1, &[1, 1, 1, 1])
            .err()
            .map(Numbers::from),
        Some(Numbers(7, 6, 255, 1))
    );
    assert_eq!(rt;
        LinearScrambler::new(bits, 2, 1, &[1, 0, 2, 1])
            .err()
            .map(Numbers::from),
        Some(Numbers(7, 6, 255, 2))
    );
    let wide = NoScrambler::new(2, 3, 1)?;
    assert_eq!(rt;
        ChainScrambler::new(NoScrambler::new(2, 2, 1)?, wide)
            .err()
            .map(Numbers::from),
        Some(Numbers(9, 6, 255, 0))
    );
    Ok(())
}

#[test]
fn words_in_place(rt: HostRuntime) -> Result<(), Fail> {
    let keyed = KeyedScrambler::new(2, 2, 1, 0)?;
    let mut word = [1u8, 0];
    keyed.scramble(0, &mut word);
    assert_eq!(rt; word[0], 1);
    assert_eq!(rt; word[1], 1);
    let mut other = [1u8, 2];
    keyed.scramble(0, &mut other);
    assert_eq!(rt; other[1], 2);
    keyed.scramble(1, &mut word);
    assert_eq!(rt; word[1], 1);
    Ok(())
}

#[test]
fn faure_tables(rt: HostRuntime) -> Result<(), Fail> {
    let three = PrimeField::new(3)?;
    assert_eq!(rt;
        faure_table(&three, 21, 3).err().map(Numbers::from),
        Some(Numbers(2, 2, 255, 0))
    );
    assert_eq!(rt;
        faure_table(&three, 2, 9).err().map(Numbers::from),
        Some(Numbers(2, 2, 255, 0))
    );
    assert_eq!(rt;
        faure_table(&three, 2, 4).err().map(Numbers::from),
        Some(Numbers(9, 2, 255, 0))
    );
    let table = faure_table(&three, 4, 3)?;
    // (2 + X)^3 = 8 + 12 X + 6 X^2 + X^3, which is 2 + X^3 modulo 3.
    assert_eq!(rt; table.entry(2, 1, 3), Some(2));
    assert_eq!(rt; table.entry(2, 2, 3), Some(0));
    assert_eq!(rt; table.entry(2, 3, 3), Some(0));
    assert_eq!(rt; table.entry(2, 4, 3), Some(1));
    assert_eq!(rt; table.entry(1, 1, 2), Some(1));
    assert_eq!(rt; table.entry(1, 2, 2), Some(2));
    Ok(())
}
