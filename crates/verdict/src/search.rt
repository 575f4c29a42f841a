//! The search for the least t: the first, from 0 up, whose splits all pass.
ghost use Rattle.std.specs.Prelude.{◌≡◌, ◌≤◌, ◌↔◌, IsTrue, length};
ghost use Rattle.base.specs.Independence.{FirstPassing, Passes};
ghost use Rattle.base.specs.Nets.{total};
ghost use Rattle.base.specs.Tests.{Gives};
ghost use Rattle.tables.specs.Table.{model};
ghost use Rattle.verdict.specs.Search.{search_tests};

use crate::matrix::Matrix;
use base::faults::{Fault, Kind, Layer};
use base::splits::Splits;
use fields::field::Field;
use tables::table::Table;

// Whether a split passes: its rows, cut to m columns, are independent.
// Field, table and m stay parameters: a struct of references, with what is asked of the three as ghost fields, would be made
// for one call.
fn split_passes<F: Field>(field: &F, table: &Table, counts: &[u8], m: u8) -> bool
    requires same { (F.Field.means field.now).q ≡ (model table.now).q }
    requires each { length counts.now ≡ (model table.now).coordinates }
    requires few { total counts.now ≤ m }
    requires within { m ≤ (model table.now).digits }
    ensures { IsTrue result ↔ Passes (F.Field.means field.now) (model table.now) m counts.now }
{
    Matrix::of_split(table, counts, m).is_independent(field)
}

// The first t, from 0 up, whose splits all pass; for t = m there is nothing to pass.
fn search<F: Field>(field: &F, table: &Table, m: u8) -> u8
    requires same { (F.Field.means field.now).q ≡ (model table.now).q }
    requires within { m ≤ (model table.now).digits }
    ensures { FirstPassing (F.Field.means field.now) (model table.now) m result }
{
    // By a rule of the project the search is two loops, left by a label at the first split that fails, and no `find`.
    'next: for t in 0..m {
        let mut at = Splits::first(table.coordinates(), m - t);
        while let Some(splits) = at {
            if !split_passes(field, table, splits.counts(), m) {
                continue 'next;
            }
            at = splits.next();
        }
        return t;
    }
    m
}

/// The least t of every block of q^m points of a table over a field: the first t, from 0 up, whose splits all pass.
pub fn first_passing<F: Field>(field: &F, table: &Table, m: u8) -> Result<u8, Fault>
    ensures { Gives (search_tests (F.Field.means field.now) (model table.now) m) result (FirstPassing (F.Field.means field.now) (model table.now) m) }
{
    if m > table.digits() {
        return Err(Fault::of(Kind::OutOfReach, Layer::Run));
    }
    if field.q() != table.q() {
        return Err(Fault::of(Kind::Mismatch, Layer::Run));
    }
    Ok(search(field, table, m))
}
