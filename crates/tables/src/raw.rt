//! Raw tables: digits as the caller gives them.
ghost use Rattle.base.specs.Tables.{SameTable};
ghost use Rattle.base.specs.Tests.{Gives};
ghost use Rattle.tables.specs.Raw.{raw_table, raw_tests};
ghost use Rattle.tables.specs.Table.{model};

use crate::table::Table;
use base::digits::check_digits;
use base::faults::{Fault, Kind, Layer};
use base::limits::Shape;

/// The table in the bytes, coordinate by coordinate, row by row.
pub fn raw_table(q: u8, digits: u8, coordinates: u8, bytes: &[u8]) -> Result<Table, Fault>
    ensures { Gives (raw_tests q digits coordinates bytes.now) result (λ t. SameTable (model t) (raw_table q digits coordinates bytes.now)) }
{
    let shape = Shape::new(q, digits, coordinates, Layer::Tables)?;
    let n = digits as usize;
    if bytes.len() != coordinates as usize * (n * n) {
        return Err(Fault::of(Kind::WrongLength, Layer::Tables));
    }
    check_digits(bytes, q, Layer::Tables)?;
    Ok(Table::build(shape, |coordinate, row, column| {
        bytes[(coordinate * n + (row - 1)) * n + column]
    }))
}
