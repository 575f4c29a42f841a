//! Moving the present digits from one index to another.
ghost use Rattle.std.specs.Prelude.{◌≡◌, ◌^◌, ◌<◌};
ghost use Rattle.base.specs.Orders.{digit};
ghost use Rattle.tables.specs.Table.{model};
ghost use Rattle.run.specs.Present.{Changed, Moved, Present};

use crate::coordinate::Coordinate;
use fields::field::Field;
use tables::table::Table;

// Changes every coordinate for one index digit that changed.
// Field and table stay two parameters: a struct of references to both would be made anew for each call, and lengthen each clause.
fn change_all<F: Field>(
    field: &F,
    table: &Table,
    coordinates: &mut [Coordinate; 8],
    column: u8,
    by: u8,
)
    ensures { column < (model table.now).digits → Changed (F.Field.means field.now) (model table.now) column by (model table.now).coordinates coordinates.old coordinates.new }
{
    for (j, coordinate) in coordinates[..table.coordinates() as usize]
        .iter_mut()
        .enumerate()
    {
        if let Some(digits) = table.column(j as u8, column) {
            coordinate.change(field, digits, by);
        }
    }
}

/// Moves the present digits from one index to another, and answers in how many digits the two differ.
pub(crate) fn advance<F: Field>(
    field: &F,
    table: &Table,
    coordinates: &mut [Coordinate; 8],
    from: u64,
    to: u64,
) -> u8
    ensures { Moved (F.Field.means field.now) (model table.now) from to coordinates.old coordinates.new result }
{
    let q = u64::from(table.q());
    let mut old = from;
    let mut new = to;
    let mut changed = 0;
    for column in 0..table.digits() {
        if old == new {
            break;
        }
        let a = (old % q) as u8;
        let b = (new % q) as u8;
        if a != b {
            change_all(
                field,
                table,
                coordinates,
                column,
                field.add(b, field.neg(a)),
            );
            changed += 1;
        }
        old /= q;
        new /= q;
    }
    changed
}

/// The coordinates at an index.
pub(crate) fn present<F: Field>(field: &F, table: &Table, index: u64) -> [Coordinate; 8]
    ensures { (F.Field.means field.now).q ≡ (model table.now).q → index < (model table.now).q ^ (model table.now).digits → Present (F.Field.means field.now) (model table.now) (digit (model table.now).q index) result }
{
    let mut coordinates = [Coordinate { digits: [0; 32] }; 8];
    advance(field, table, &mut coordinates, 0, index);
    coordinates
}
