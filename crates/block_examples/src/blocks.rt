//! Blocks of points of small tables and of Faure tables, and their least t.
ghost use Rattle.std.specs.Prelude.{ℕ, ◌≤◌};
ghost use Rattle.tables.specs.Table.{model};

use crate::points::Points;
use checks::check::least_t;
use fields::bit::BitField;
use fields::field::Field;
use fields::four::FourField;
use fields::prime::PrimeField;
use orders::gray::GrayOrder;
use orders::order::Order;
use orders::plain::PlainOrder;
use scramblers::keyed::KeyedScrambler;
use scramblers::none::NoScrambler;
use scramblers::scrambler::Scrambler;
use tables::faure::faure_table;
use tables::raw::raw_table;
use tables::table::Table;

/// Two coordinates of three rows that hold 0 only.
pub const ZEROS: [u8; 18] = [0; 18];

/// Two coordinates of three rows, each 1 on the diagonal and 0 elsewhere.
pub const EQUAL_COORDINATES: [u8; 18] = [1, 0, 0, 0, 1, 0, 0, 0, 1, 1, 0, 0, 0, 1, 0, 0, 0, 1];

/// Eight points of one coordinate over 2^3, one of them twice.
pub const SIX_TWICE: [u32; 8] = [0, 1, 2, 3, 4, 5, 6, 6];

// Prints the least t of a block of q^m points, for each m: of the block whose number a rule gives.
fn print_blocks<F: Field, O: Order, S: Scrambler, B: Fn(u8) -> u64>(
    rt: &HostRuntime,
    name: &str,
    way: &str,
    points: &Points<F, O, S>,
    block: B,
) -> anyhow::Result<()>
    requires { (m : ℕ) → m ≤ (model points.now.table.now).digits → B.pre block m }
{
    let q = points.table.q();
    let digits = points.table.digits();
    let coordinates = points.table.coordinates();
    for m in 0..=digits {
        let block = block(m);
        let t = points.least_of_block(rt.alloc(), m, block)?;
        println!(rt; "{name} q {q} M {digits} s {coordinates} m {m} block {block} {way}: t {t}")?;
    }
    Ok(())
}

// Prints the first blocks of a table, in plain order and not scrambled.
fn print_first_blocks<F: Field>(
    rt: &HostRuntime,
    name: &str,
    field: &F,
    table: &Table,
) -> anyhow::Result<()> {
    let order = PlainOrder::new(table.q(), table.digits())?;
    let scrambler = NoScrambler::new(table.q(), table.digits(), table.coordinates())?;
    let points = Points::new(field, &order, &scrambler, table)?;
    print_blocks(rt, name, "plain none", &points, |_| 0)
}

// Prints the first and the last blocks of the Faure table over a field, the last in Gray order and scrambled by key 7.
fn print_faure<F: Field>(
    rt: &HostRuntime,
    field: &F,
    digits: u8,
    coordinates: u8,
) -> anyhow::Result<()> {
    let table = faure_table(field, digits, coordinates)?;
    print_first_blocks(rt, "faure", field, &table)?;
    let order = GrayOrder::new(table.q(), digits)?;
    let scrambler = KeyedScrambler::new(table.q(), digits, coordinates, 7)?;
    let points = Points::new(field, &order, &scrambler, &table)?;
    print_blocks(rt, "faure", "gray keyed", &points, |m| points.last_block(m))
}

// Prints the least t of tables and points whose t is worked out by hand.
fn print_small(rt: &HostRuntime) -> anyhow::Result<()> {
    print_first_blocks(rt, "zeros", &BitField, &raw_table(2, 3, 2, &ZEROS)?)?;
    let equal = raw_table(2, 3, 2, &EQUAL_COORDINATES)?;
    print_first_blocks(rt, "equal coordinates", &BitField, &equal)?;
    let three = PrimeField::new(3)?;
    print_first_blocks(rt, "faure", &three, &faure_table(&three, 2, 3)?)?;
    let mut counters = [0u32; 8];
    let t = least_t(2, 3, 1, 3, &SIX_TWICE, &mut counters)?;
    println!(rt; "0 1 2 3 4 5 6 6 over 2^3: t {t}")?;
    Ok(())
}

/// Prints the least t of small sets of points, and of blocks of Faure tables.
pub fn print_nets(rt: &HostRuntime) -> anyhow::Result<()> {
    print_small(rt)?;
    print_faure(rt, &PrimeField::new(3)?, 4, 3)?;
    print_faure(rt, &FourField, 3, 4)?;
    print_faure(rt, &PrimeField::new(5)?, 3, 5)?;
    print_faure(rt, &PrimeField::new(13)?, 2, 8)
}
