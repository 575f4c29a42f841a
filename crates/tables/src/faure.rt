//! Faure tables, over any field.
ghost use Rattle.std.specs.Prelude.{◌≡◌, ℕ, ◌<◌, ◌≤◌, [], ◌∷◌, length, slice_index, slice_index_or};
ghost use Rattle.base.specs.Tables.{SameTable};
ghost use Rattle.base.specs.Tests.{Gives};
ghost use Rattle.tables.specs.Columns.{PowerColumn, PowerColumns, under};
ghost use Rattle.tables.specs.Faure.{faure_table, faure_tests};
ghost use Rattle.tables.specs.Table.{model};

use crate::table::Table;
use base::faults::{Fault, Kind, Layer};
use base::limits::Shape;
use fields::field::Field;

// The coefficients of (a + X) p, from those of p: a times each, plus the one below it.
fn times_a_plus_x<F: Field>(field: &F, a: u8, column: [u8; 32]) -> [u8; 32]
    ensures { (i : ℕ) → i < 32 → slice_index result i ≡ (F.Field.means field.now).sum ((F.Field.means field.now).product a (slice_index column i)) (under column i) }
{
    let mut next = column;
    let mut below = 0;
    for coefficient in next.iter_mut() {
        let here = *coefficient;
        *coefficient = field.add(field.mul(a, here), below);
        below = here;
    }
    next
}

// The coefficients of 1.
fn one() -> [u8; 32]
    ensures size { length result ≡ 32 }
    ensures coefficients { (i : ℕ) → slice_index result i ≡ slice_index (1 ∷ []) i }
{
    let mut column = [0u8; 32];
    column[0] = 1;
    column
}

// The coefficients of the powers of a + X, each from those of the one before it.
fn powers<F: Field>(field: &F, a: u8) -> [[u8; 32]; 32]
    requires { a < (F.Field.means field.now).q }
    ensures { (l : ℕ) → l < 32 → PowerColumn (F.Field.means field.now) a l (slice_index_or result l []) }
{
    let mut columns = [[0u8; 32]; 32];
    let mut power = one();
    for column in columns.iter_mut() {
        *column = power;
        let next = times_a_plus_x(field, a, power);
        power = next;
    }
    columns
}

// The columns of every coordinate a: the powers of a + X.
fn all_columns<F: Field>(field: &F, coordinates: u8) -> [[[u8; 32]; 32]; 8]
    requires { (coordinates ≤ 8) × (coordinates ≤ (F.Field.means field.now).q) }
    ensures { PowerColumns (F.Field.means field.now) coordinates result }
{
    // No table asks for memory: there are at most eight coordinates of 32 columns.
    let mut columns = [[[0u8; 32]; 32]; 8];
    for (a, powers_of_a) in columns[..coordinates as usize].iter_mut().enumerate() {
        *powers_of_a = powers(field, a as u8);
    }
    columns
}

/// The Faure table over a field, of some digits and coordinates.
pub fn faure_table<F: Field>(field: &F, digits: u8, coordinates: u8) -> Result<Table, Fault>
    ensures { Gives (faure_tests (F.Field.means field.now) digits coordinates) result (λ t. SameTable (model t) (faure_table (F.Field.means field.now) digits coordinates)) }
{
    let q = field.q();
    let shape = Shape::new(q, digits, coordinates, Layer::Tables)?;
    if coordinates > q {
        return Err(Fault::of(Kind::Mismatch, Layer::Tables));
    }
    let columns = all_columns(field, coordinates);
    Ok(Table::build(shape, |coordinate, row, column| {
        columns[coordinate][column][row - 1]
    }))
}
