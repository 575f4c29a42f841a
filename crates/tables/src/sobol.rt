//! Sobol' tables, from a direction list.
ghost use Rattle.std.specs.Prelude.{◌≡◌, ◌/◌, ◌<◌, ◌≤◌, length, slice_index};
ghost use Rattle.base.specs.Tables.{SameTable};
ghost use Rattle.base.specs.Tests.{Gives};
ghost use Rattle.tables.specs.Reader.{Whole};
ghost use Rattle.tables.specs.Sobol.{NumbersUpTo, records_tests, sobol_digit, sobol_table, sobol_tests};
ghost use Rattle.tables.specs.Table.{model};

use crate::directions::direction_numbers;
use crate::reader::Reader;
use crate::record::RECORD_BYTES;
use crate::table::Table;
use base::faults::{Fault, Layer};
use base::limits::Shape;

// Reads every record of a list, from its beginning, and works out the direction numbers of each coordinate.
fn read_all(mut reader: Reader) -> Result<[[u32; 32]; 8], Fault>
    requires { (Whole reader.list.now) × ((length reader.list.now ≤ 160) × (reader.place ≡ 0)) }
    ensures { Gives (records_tests reader.entry.list.now) result (NumbersUpTo reader.entry.list.now (length reader.entry.list.now / 20)) }
{
    // No list asks for memory: there are at most eight coordinates.
    let mut numbers = [[0u32; 32]; 8];
    while let Some(record) = reader.next()? {
        numbers[record.coordinate as usize] = direction_numbers(&record)?;
    }
    Ok(numbers)
}

// The digit in a row and a column: a bit of the column's direction number, and 0 below the diagonal, where no number is read.
fn digit_of(numbers: &[u32; 32], row: usize, column: usize) -> u8
    requires { (1 ≤ row) × (column < 32) }
    ensures value { result ≡ sobol_digit (λ _. slice_index numbers.now column) row column }
    ensures small { result < 2 }
{
    if row > column + 1 {
        return 0;
    }
    ((numbers[column] >> (column + 1 - row)) & 1) as u8
}

/// The Sobol' table of a direction list, of some digits.
pub fn sobol_table(list: &[u8], digits: u8) -> Result<Table, Fault>
    ensures { Gives (sobol_tests list.now digits) result (λ t. SameTable (model t) (sobol_table list.now digits)) }
{
    let reader = Reader::new(list)?;
    let coordinates = (list.len() / RECORD_BYTES) as u8;
    let shape = Shape::new(2, digits, coordinates, Layer::Tables)?;
    let numbers = read_all(reader)?;
    Ok(Table::build(shape, |coordinate, row, column| {
        digit_of(&numbers[coordinate], row, column)
    }))
}
