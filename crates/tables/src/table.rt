//! The table type: how a table is built digit by digit, and how it is read.
ghost use Rattle.std.specs.Prelude.{◌≡◌, ℕ, ◌^◌, ◌<◌, ◌≤◌, ◌+◌, ◌↔◌, true, false, length, IfSome, IsNone, MatchOption, slice_index};
ghost use Rattle.std.specs.Option.{SomeIff};
ghost use Rattle.base.specs.Tables.{Inside};
ghost use Rattle.tables.specs.Places.{coordinate_at, row_at, column_at, used};

use base::limits::Shape;

/// The places of eight coordinates of 32 rows and 32 columns: the largest table.
const PLACES: usize = 8192;

/// The digits of a table, within the engine's limits.
#[derive(Clone, Copy, Debug, PartialEq, Eq)]
pub struct Table {
    shape: Shape,
    // No table asks for memory. A column lies in one piece, so that a step reads it in one go; places out of use hold 0.
    // Flat: tried as three nested arrays, the borrow checker does not cover a struct made with them.
    entries: [u8; PLACES],
    ghost small: { (i : ℕ) → slice_index entries i < shape.q },
    ghost spare: { (i : ℕ) → used shape.digits shape.coordinates i ≡ false → slice_index entries i ≡ 0 },
}

// A place of a table.
#[derive(Clone, Copy)]
struct Place {
    coordinate: usize,
    row: usize,
    column: usize,
}

// The coordinate, row and column that lie at an index; none where a table of this shape does not use it.
fn place_at(index: usize, shape: &Shape) -> Option<Place>
    ensures spare { IsNone result ↔ (used shape.now.digits shape.now.coordinates index ≡ false) }
    ensures inside { IfSome result (λ p. Inside shape.now.digits shape.now.coordinates p.coordinate p.row p.column) }
    ensures place { IfSome result (λ p. (p.coordinate ≡ coordinate_at index) × (p.row ≡ row_at index) × (p.column ≡ column_at index)) }
{
    let coordinate = index / 1024;
    let column = index / 32 % 32;
    let row = index % 32;
    let digits = shape.digits as usize;
    if coordinate < shape.coordinates as usize && row < digits && column < digits {
        Some(Place {
            coordinate,
            row: row + 1,
            column,
        })
    } else {
        None
    }
}

// The digits that a rule gives, each at its place; 0 where there is none. A rule is given three numbers, as `entry` is.
fn spread<R: Fn(usize, usize, usize) -> u8>(shape: &Shape, rule: R) -> [u8; PLACES]
    requires can { (j k l : ℕ) → Inside shape.now.digits shape.now.coordinates j k l → R.pre rule j k l }
    requires small { (j k l x : ℕ) → Inside shape.now.digits shape.now.coordinates j k l → R.post rule j k l x → x < shape.now.q }
    ensures small { (i : ℕ) → slice_index result i < shape.now.q }
    ensures spare { (i : ℕ) → used shape.now.digits shape.now.coordinates i ≡ false → slice_index result i ≡ 0 }
    ensures given { (i : ℕ) → used shape.now.digits shape.now.coordinates i ≡ true → R.post rule (coordinate_at i) (row_at i) (column_at i) (slice_index result i) }
{
    let mut entries = [0; PLACES];
    // Tried by `array::from_fn`: its clause is a recursion over the 8,192 calls, and the check had not ended after ten minutes.
    // Past the coordinates in use all is 0 already.
    let used = shape.coordinates as usize * 1024;
    for (index, entry) in entries[..used].iter_mut().enumerate() {
        *entry = match place_at(index, shape) {
            Some(at) => rule(at.coordinate, at.row, at.column),
            None => 0,
        };
    }
    entries
}

impl Table {
    ghost use Rattle.tables.specs.Table.{model};

    // The table whose digits a rule gives, from coordinate, row and column.
    pub(crate) fn build<R: Fn(usize, usize, usize) -> u8>(shape: Shape, rule: R) -> Table
        requires can { (j k l : ℕ) → Inside shape.digits shape.coordinates j k l → R.pre rule j k l }
        requires small { (j k l x : ℕ) → Inside shape.digits shape.coordinates j k l → R.post rule j k l x → x < shape.q }
        ensures shape { result.shape ≡ shape }
        ensures entries { (j k l : ℕ) → Inside shape.digits shape.coordinates j k l → R.post rule j k l ((model result).entry j k l) }
    {
        let entries = spread(&shape, rule);
        Table { shape, entries }
    }

    /// The number of different digits.
    pub fn q(&self) -> u8
        ensures { result ≡ (model self.now).q }
    {
        self.shape.q
    }

    /// The number of rows and of columns.
    pub fn digits(&self) -> u8
        ensures { result ≡ (model self.now).digits }
    {
        self.shape.digits
    }

    /// The number of positions, q^digits.
    pub fn positions(&self) -> u64
        ensures { result ≡ (model self.now).q ^ (model self.now).digits }
    {
        self.shape.positions
    }

    /// The number of coordinates.
    pub fn coordinates(&self) -> u8
        ensures { result ≡ (model self.now).coordinates }
    {
        self.shape.coordinates
    }

    /// The digit in a row (from 1) and a column (from 0) of a coordinate (from 0); none outside the table.
    pub fn entry(&self, coordinate: u8, row: u8, column: u8) -> Option<u8>
        ensures { SomeIff result (Inside (model self.now).digits (model self.now).coordinates coordinate row column) ((model self.now).entry coordinate row column) }
    {
        let shape = &self.shape;
        if coordinate >= shape.coordinates
            || row < 1
            || row > shape.digits
            || column >= shape.digits
        {
            return None;
        }
        Some(self.entries[coordinate as usize * 1024 + column as usize * 32 + (row as usize - 1)])
    }

    /// A column of a coordinate (both from 0) in one piece of 32: the digit of row 1 first, and 0 past the last row; none outside the table.
    pub fn column(&self, coordinate: u8, column: u8) -> Option<&[u8]>
        ensures { MatchOption result ((coordinate < (model self.now).coordinates) × (column < (model self.now).digits) → ⊥) (λ x. (coordinate < (model self.now).coordinates) × (column < (model self.now).digits) × (length x.now ≡ 32) × ((k : ℕ) → k < 32 → slice_index x.now k ≡ (model self.now).entry coordinate (k + 1) column)) }
    {
        if coordinate >= self.shape.coordinates || column >= self.shape.digits {
            return None;
        }
        let first = coordinate as usize * 1024 + column as usize * 32;
        Some(&self.entries[first..first + 32])
    }
}
