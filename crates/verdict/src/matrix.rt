//! The rows of a split, taken from a table, and whether they are linearly independent over a field.
ghost use Rattle.std.specs.Prelude.{◌≡◌, ℕ, ◌+◌, ◌<◌, ◌≤◌, ◌↔◌, IsTrue, MatchOption, length, slice_index, slice_set};
ghost use Rattle.base.specs.Independence.{Independent};
ghost use Rattle.base.specs.Nets.{total};
ghost use Rattle.tables.specs.Table.{model};
ghost use Rattle.verdict.specs.Matrices.{ClearedBelow, DigitRows, PivotAt, SplitRows, digits_of};

use fields::field::Field;
use tables::table::Table;

type Row = [u8; 32];

/// A column in which a row is not 0, and the inverse of its digit there.
#[derive(Clone, Copy)]
pub(crate) struct Pivot {
    column: usize,
    inverse: u8,
}

// The first column in use in which a row is not 0, that is, in which its digit has an inverse; none where it is 0 in all of them.
fn pivot_of<F: Field>(field: &F, row: &Row, columns: usize) -> Option<Pivot>
    requires within { columns ≤ 32 }
    requires digits { (l : ℕ) → l < columns → slice_index row.now l < (F.Field.means field.now).q }
    ensures { MatchOption result ((l : ℕ) → l < columns → slice_index row.now l ≡ 0) (PivotAt (F.Field.means field.now) columns row.now) }
{
    // By a rule of the project the search for a pivot takes the inverse apart, so this is no `find_map`.
    for (column, digit) in row[..columns].iter().enumerate() {
        if let Some(inverse) = field.inverse(*digit) {
            return Some(Pivot { column, inverse });
        }
    }
    None
}

// Adds a multiple of another row to a row, in the columns in use. These stay a number beside the row: a part of a row can't be
// lent for writing while the rows are gone through (tried; the borrow checker does not cover it).
fn add_multiple<F: Field>(field: &F, row: &mut Row, factor: u8, other: &Row, columns: usize)
    requires { columns ≤ 32 }
    ensures { (l : ℕ) → l < columns → slice_index row.new l ≡ (F.Field.means field.now).sum (slice_index row.old l) ((F.Field.means field.now).product factor (slice_index other.now l)) }
{
    // The sum is written by index; tried: what a `zip` over `iter_mut` leaves in the row is not known to a proof.
    for (column, digit) in other[..columns].iter().enumerate() {
        row[column] = field.add(row[column], field.mul(factor, *digit));
    }
}

// The first columns of a row of a coordinate.
fn table_row(table: &Table, coordinate: u8, row: u8, columns: usize) -> Row
    requires coordinate { coordinate < (model table.now).coordinates }
    requires row { (1 ≤ row) × (row ≤ (model table.now).digits) }
    requires columns { columns ≤ (model table.now).digits }
    ensures { (l : ℕ) → l < columns → slice_index result l ≡ (model table.now).entry coordinate row l }
{
    let mut digits = [0u8; 32];
    for (column, digit) in digits[..columns].iter_mut().enumerate() {
        *digit = table.entry(coordinate, row, column as u8).unwrap_or(0);
    }
    digits
}

/// Rows of digits: the first `count` rows, and their first `columns` digits. The rest has no say.
#[derive(Clone, Copy)]
pub(crate) struct Matrix {
    // Fixed arrays with the numbers that are in use, since nothing may ask for heap memory.
    rows: [Row; 32],
    count: usize,
    columns: usize,
    ghost few: { count ≤ 32 },
    ghost narrow: { columns ≤ 32 },
}

impl Matrix {
    // Adds a row after the others.
    fn push(&mut self, row: Row)
        requires { self.old.count < 32 }
        ensures rows { self.new.rows ≡ slice_set self.old.rows self.old.count row }
        ensures count { self.new.count ≡ self.old.count + 1 }
        ensures columns { self.new.columns ≡ self.old.columns }
    {
        self.rows[self.count] = row;
        self.count += 1;
    }

    // What counts fit stands in clauses, as in the counting check.
    /// The rows of a split: the first so many of each coordinate, one after the other, cut to some columns.
    pub(crate) fn of_split(table: &Table, counts: &[u8], columns: u8) -> Matrix
        requires each { length counts.now ≡ (model table.now).coordinates }
        requires few { total counts.now ≤ columns }
        requires within { columns ≤ (model table.now).digits }
        ensures count { result.count ≡ total counts.now }
        ensures columns { result.columns ≡ columns }
        ensures rows { SplitRows (model table.now) counts.now columns (total counts.now) result.rows }
    {
        let mut matrix = Matrix {
            rows: [[0u8; 32]; 32],
            count: 0,
            columns: columns as usize,
        };
        for (coordinate, count) in counts.iter().enumerate() {
            for row in 0..*count {
                let row = table_row(table, coordinate as u8, row + 1, columns as usize);
                matrix.push(row);
            }
        }
        matrix
    }

    // Clears the column of a pivot in the rows after the pivot's own.
    fn clear_below<F: Field>(&mut self, field: &F, own: usize, pivot: Pivot)
        requires own { own < self.old.count }
        requires pivot { pivot.column < self.old.columns }
        ensures count { self.new.count ≡ self.old.count }
        ensures columns { self.new.columns ≡ self.old.columns }
        ensures rows { ClearedBelow (F.Field.means field.now) self.old.columns own pivot self.old.count self.old.rows self.new.rows }
    {
        let pivot_row = self.rows[own];
        let columns = self.columns;
        for row in &mut self.rows[own + 1..self.count] {
            let factor = field.neg(field.mul(row[pivot.column], pivot.inverse));
            add_multiple(field, row, factor, &pivot_row, columns);
        }
    }

    /// Whether the rows are linearly independent.
    pub(crate) fn is_independent<F: Field>(mut self, field: &F) -> bool
        requires { DigitRows (F.Field.means field.now).q 0 self.count self.columns self.rows }
        ensures { IsTrue result ↔ Independent (F.Field.means field.now) self.count self.columns (digits_of self.rows) }
    {
        // By index: each row with a pivot changes the rows after it. A `while let` over `split_first_mut` would want a measure, and
        // speak of what is left of the rows where the contracts count them.
        for own in 0..self.count {
            let row = self.rows[own];
            let Some(pivot) = pivot_of(field, &row, self.columns) else {
                return false;
            };
            self.clear_below(field, own, pivot);
        }
        true
    }
}
