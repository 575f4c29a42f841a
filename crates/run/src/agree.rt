//! Whether parts and a table belong together.
ghost use Rattle.std.specs.Prelude.{◌↔◌, IsTrue};
ghost use Rattle.run.specs.Runs.{Agree, parts};
ghost use Rattle.tables.specs.Table.{model};

use fields::field::Field;
use orders::order::Order;
use scramblers::scrambler::Scrambler;
use tables::table::Table;

/// Whether a field, an order and a scrambler have the q, M and s of a table.
pub fn agree<F: Field, O: Order, S: Scrambler>(
    field: &F,
    order: &O,
    scrambler: &S,
    table: &Table,
) -> bool
    ensures { IsTrue result
        ↔ Agree (parts (F.Field.means field.now) (O.Order.means order.now) (S.Scrambler.means scrambler.now)) (model table.now) }
{
    field.q() == table.q()
        && order.q() == table.q()
        && order.digits() == table.digits()
        && scrambler.q() == table.q()
        && scrambler.digits() == table.digits()
        && scrambler.coordinates() == table.coordinates()
}
