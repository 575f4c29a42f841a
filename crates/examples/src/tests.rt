//! Lists that are accepted and refused, and raw tables. Expected numbers are worked out by hand.
use crate::lists::{GOOD, THIRTY_ONE};
use base::faults::Numbers;
use std::test::Fail;
use tables::raw::raw_table;
use tables::reader::Reader;
use tables::sobol::sobol_table;

#[test]
fn lists_of_other_sizes(rt: HostRuntime) -> Result<(), Fail> {
    assert_eq!(rt;
        sobol_table(&[], 16).err().map(Numbers::from),
        Some(Numbers(3, 1, 255, 0))
    );
    assert_eq!(rt;
        sobol_table(&[0u8; 19], 16).err().map(Numbers::from),
        Some(Numbers(3, 1, 255, 0))
    );
    assert_eq!(rt;
        sobol_table(&[0u8; 180], 16).err().map(Numbers::from),
        Some(Numbers(2, 1, 255, 0))
    );
    assert_eq!(rt;
        sobol_table(GOOD, 0).err().map(Numbers::from),
        Some(Numbers(2, 2, 255, 0))
    );
    assert_eq!(rt;
        sobol_table(GOOD, 33).err().map(Numbers::from),
        Some(Numbers(2, 2, 255, 0))
    );
    // The list is tested before the number of digits, and that before any record.
    assert_eq!(rt;
        sobol_table(&[0u8; 19], 33).err().map(Numbers::from),
        Some(Numbers(3, 1, 255, 0))
    );
    assert_eq!(rt;
        sobol_table(&[1u8; 20], 33).err().map(Numbers::from),
        Some(Numbers(2, 2, 255, 0))
    );
    assert!(rt; sobol_table(GOOD, 32).is_ok());
    Ok(())
}

#[test]
fn one_byte_put_wrong(rt: HostRuntime) -> Result<(), Fail> {
    let cases = [
        (20usize, 9u8, Numbers(4, 1, 1, 20)),
        (21, 1, Numbers(4, 1, 1, 20)),
        (22, 10, Numbers(4, 1, 1, 20)),
        (23, 1, Numbers(4, 1, 1, 20)),
        (31, 1, Numbers(4, 1, 1, 20)),
        (39, 1, Numbers(4, 1, 1, 20)),
        (2, 3, Numbers(4, 1, 0, 0)),
        (22, 15, Numbers(5, 2, 1, 20)),
        (28, 6, Numbers(6, 2, 1, 20)),
        (28, 9, Numbers(6, 2, 1, 20)),
        (26, 4, Numbers(6, 2, 1, 20)),
    ];
    for (place, value, expected) in cases {
        let mut list = *GOOD;
        assert!(rt; place < 40);
        list[place] = value;
        assert_eq!(rt;
            sobol_table(&list, 16).err().map(Numbers::from),
            Some(expected)
        );
    }
    Ok(())
}

#[test]
fn a_record_bad_in_two_ways(rt: HostRuntime) -> Result<(), Fail> {
    let mut list = *GOOD;
    list[28] = 6;
    list[22] = 15;
    assert_eq!(rt;
        sobol_table(&list, 16).err().map(Numbers::from),
        Some(Numbers(5, 2, 1, 20))
    );
    list[21] = 1;
    assert_eq!(rt;
        sobol_table(&list, 16).err().map(Numbers::from),
        Some(Numbers(4, 1, 1, 20))
    );
    Ok(())
}

#[test]
fn irreducible_is_not_primitive(rt: HostRuntime) -> Result<(), Fail> {
    assert_eq!(rt;
        sobol_table(THIRTY_ONE, 16).err().map(Numbers::from),
        Some(Numbers(5, 2, 0, 0))
    );
    Ok(())
}

#[test]
fn a_refused_record_stays_the_next(rt: HostRuntime) -> Result<(), Fail> {
    let mut list = *GOOD;
    list[21] = 1;
    let mut reader = Reader::new(&list)?;
    let first = reader.next()?.ok_or("no first record")?;
    assert_eq!(rt; first.place, 0);
    assert!(rt; reader.next().is_err());
    match reader.next() {
        Ok(_) => Err(Fail::new("handed out")),
        Err(fault) => {
            assert_eq!(rt; fault.place, 20);
            Ok(())
        },
    }
}

#[test]
fn records_come_with_their_places_and_end(rt: HostRuntime) -> Result<(), Fail> {
    let mut reader = Reader::new(GOOD)?;
    let first = reader.next()?.ok_or("no first record")?;
    let second = reader.next()?.ok_or("no second record")?;
    assert_eq!(rt; first.place, 0);
    assert_eq!(rt; second.place, 20);
    assert_eq!(rt; second.bytes.len(), 20);
    assert_eq!(rt; second.coordinate, 1);
    assert!(rt; reader.next()?.is_none());
    assert!(rt; reader.next()?.is_none());
    Ok(())
}

#[test]
fn rows_of_polynomial_eleven(rt: HostRuntime) -> Result<(), Fail> {
    // The columns are 1, 11, 111, 0101, 00111 and 101011, top bit first.
    let rows = [
        [1u8, 1, 1, 0, 0, 1],
        [0, 1, 1, 1, 0, 0],
        [0, 0, 1, 0, 1, 1],
        [0, 0, 0, 1, 1, 0],
        [0, 0, 0, 0, 1, 1],
        [0, 0, 0, 0, 0, 1],
    ];
    let table = sobol_table(GOOD, 6)?;
    for (row, digits) in rows.iter().enumerate() {
        for (column, digit) in digits.iter().enumerate() {
            assert_eq!(rt; table.entry(1, row as u8 + 1, column as u8), Some(*digit));
        }
    }
    assert_eq!(rt; table.entry(1, 0, 0), None);
    assert_eq!(rt; table.entry(1, 7, 0), None);
    assert_eq!(rt; table.entry(2, 1, 0), None);
    Ok(())
}

#[test]
fn raw_tables(rt: HostRuntime) -> Result<(), Fail> {
    let bytes = [0u8, 1, 2, 0, 2, 2, 1, 0];
    let table = raw_table(3, 2, 2, &bytes)?;
    assert_eq!(rt; table.entry(0, 1, 1), Some(1));
    assert_eq!(rt; table.entry(0, 2, 0), Some(2));
    assert_eq!(rt; table.entry(1, 2, 0), Some(1));
    assert_eq!(rt;
        raw_table(2, 2, 2, &bytes).err().map(Numbers::from),
        Some(Numbers(7, 2, 255, 2))
    );
    assert_eq!(rt;
        raw_table(3, 2, 1, &bytes).err().map(Numbers::from),
        Some(Numbers(3, 2, 255, 0))
    );
    assert_eq!(rt;
        raw_table(1, 2, 2, &bytes).err().map(Numbers::from),
        Some(Numbers(2, 2, 255, 0))
    );
    assert_eq!(rt;
        raw_table(17, 2, 1, &bytes).err().map(Numbers::from),
        Some(Numbers(2, 2, 255, 0))
    );
    assert_eq!(rt;
        raw_table(3, 0, 2, &bytes).err().map(Numbers::from),
        Some(Numbers(2, 2, 255, 0))
    );
    assert_eq!(rt;
        raw_table(3, 21, 2, &bytes).err().map(Numbers::from),
        Some(Numbers(2, 2, 255, 0))
    );
    assert_eq!(rt;
        raw_table(3, 20, 2, &bytes).err().map(Numbers::from),
        Some(Numbers(3, 2, 255, 0))
    );
    assert_eq!(rt;
        raw_table(3, 2, 9, &bytes).err().map(Numbers::from),
        Some(Numbers(2, 2, 255, 0))
    );
    Ok(())
}
