//! Small sets of points whose least t is worked out by hand: the counting check on a run's points, beside its verdict.
use checks::check::least_t;
use fields::bit::BitField;
use fields::field::Field;
use fields::prime::PrimeField;
use orders::order::Order;
use orders::plain::PlainOrder;
use run::run::Run;
use scramblers::none::NoScrambler;
use scramblers::scrambler::Scrambler;
use std::process::Abort;
use std::test::Fail;
use tables::faure::faure_table;
use tables::raw::raw_table;
use tables::table::Table;

// Two coordinates of three rows that hold 0 only. This and the next are in `block_examples` too: no crate can use a module of a
// program.
const ZEROS: [u8; 18] = [0; 18];

// Two coordinates of three rows, each 1 on the diagonal and 0 elsewhere.
const EQUAL_COORDINATES: [u8; 18] = [1, 0, 0, 0, 1, 0, 0, 0, 1, 1, 0, 0, 0, 1, 0, 0, 0, 1];

// Checks that a block of points of a table, in plain order and not scrambled, has a least t by counting and by verdict.
fn check_block<F: Field + Drop>(
    rt: &impl Abort,
    field: F,
    table: &Table,
    m: u8,
    points: &mut [u32],
    t: u8,
) -> Result<(), Fail> {
    let order = PlainOrder::new(table.q(), table.digits())?;
    let scrambler = NoScrambler::new(table.q(), table.digits(), table.coordinates())?;
    let mut run = Run::new(field, order, scrambler);
    run.open(table)?;
    for point in points.chunks_exact_mut(table.coordinates() as usize) {
        run.step(point)?;
    }
    let mut counters = [0u32; 16];
    assert_eq!(rt;
        least_t(
            table.q(),
            table.digits(),
            table.coordinates(),
            m,
            points,
            &mut counters,
        )?,
        t
    );
    assert_eq!(rt; run.verdict(m)?, t);
    Ok(())
}

#[test]
fn a_table_of_zeros(rt: HostRuntime) -> Result<(), Fail> {
    // All points are 0 0: only the split of 0 holds as many in each cell.
    let table = raw_table(2, 3, 2, &ZEROS)?;
    check_block(&rt, BitField, &table, 0, &mut [7; 2], 0)?;
    check_block(&rt, BitField, &table, 1, &mut [7; 4], 1)?;
    check_block(&rt, BitField, &table, 2, &mut [7; 8], 2)?;
    check_block(&rt, BitField, &table, 3, &mut [7; 16], 3)
}

#[test]
fn two_equal_coordinates(rt: HostRuntime) -> Result<(), Fail> {
    // Half of the cells of the split 1 1 are empty, and a split of 1 is even.
    let table = raw_table(2, 3, 2, &EQUAL_COORDINATES)?;
    check_block(&rt, BitField, &table, 1, &mut [7; 4], 0)?;
    check_block(&rt, BitField, &table, 2, &mut [7; 8], 1)?;
    check_block(&rt, BitField, &table, 3, &mut [7; 16], 2)
}

#[test]
fn a_faure_table(rt: HostRuntime) -> Result<(), Fail> {
    let three = PrimeField::new(3)?;
    let table = faure_table(&three, 2, 3)?;
    check_block(&rt, three, &table, 1, &mut [7; 9], 0)?;
    check_block(&rt, three, &table, 2, &mut [7; 27], 0)
}

#[test]
fn one_of_eight_points_twice(rt: HostRuntime) -> Result<(), Fail> {
    // Over cells of one number 7 is missing; over cells of two numbers each holds two points.
    let mut counters = [0u32; 8];
    assert_eq!(rt;
        least_t(2, 3, 1, 3, &[0, 1, 2, 3, 4, 5, 6, 6], &mut counters)?,
        1
    );
    Ok(())
}
