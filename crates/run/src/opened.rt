//! An open run: its table, where it stands, and its calls, with what points are made with at hand.
ghost use Rattle.std.specs.Prelude.{◌≡◌, ◌+◌, ◌^◌, ◌<◌, ◌≤◌, ◌↔◌, length, IsTrue, OnErr};
ghost use Rattle.run.specs.Present.{Moved};
ghost use Rattle.base.specs.Tests.{Gives};
ghost use Rattle.run.specs.Runs.{Agree, Answers, call_tests};
ghost use Rattle.run.specs.declared.replay.Call.TheVariants.{Step, Jump, At, Verdict};

use crate::advance::{advance, present};
use crate::agree::agree;
use crate::coordinate::Coordinate;
use crate::point::write_point;
use base::faults::{Fault, Kind, Layer};
use fields::field::Field;
use orders::order::Order;
use scramblers::scrambler::Scrambler;
use tables::table::Table;
use verdict::search::first_passing;

/// What points are made with: a field, an order and a scrambler.
#[derive(Drop)]
pub(crate) struct Setup<F, O, S> {
    pub(crate) field: F,
    pub(crate) order: O,
    pub(crate) scrambler: S,
}

/// The table of an open run, a position, and the present digits of the coordinates there.
#[derive(Clone, Copy)]
pub(crate) struct Open {
    table: Table,
    pub(crate) position: u64,
    // A plain array, since no run asks for memory: there are at most eight coordinates.
    pub(crate) coordinates: [Coordinate; 8],
}

impl<F: Field, O: Order, S: Scrambler> Setup<F, O, S> {
    ghost use Rattle.run.specs.Setups.{parts_of};
    ghost use Rattle.tables.specs.Table.{model};

    /// Whether the parts have the q, M and s of a table.
    pub(crate) fn agrees(&self, table: &Table) -> bool
        ensures { IsTrue result ↔ Agree (parts_of F.Field O.Order S.Scrambler self.now) (model table.now) }
    {
        agree(&self.field, &self.order, &self.scrambler, table)
    }
}

// Each call asks that the setup fits: a run says so once, by its invariant, and a struct of the two would be made for one call.
impl Open {
    ghost use Rattle.run.specs.Setups.{parts_of};
    ghost use Rattle.tables.specs.Table.{model};
    ghost use Rattle.run.specs.States.{Shows, at_answer, jump_answer, step_answer, verdict_answer, view_of};

    /// A copy of a table, at position 0.
    pub(crate) fn new<F: Field, O: Order, S: Scrambler>(
        setup: &Setup<F, O, S>,
        table: &Table,
    ) -> Open
        requires { Agree (parts_of F.Field O.Order S.Scrambler setup.now) (model table.now) }
        ensures table { result.table ≡ table.now }
        ensures position { result.position ≡ 0 }
        ensures shows { Shows (parts_of F.Field O.Order S.Scrambler setup.now) result }
    {
        let coordinates = present(&setup.field, table, setup.order.index(0));
        Open {
            table: *table,
            position: 0,
            coordinates,
        }
    }

    // Moves on to the next position; answers how many index digits change, 0 at the last position.
    fn advance_one<F: Field, O: Order, S: Scrambler>(&mut self, setup: &Setup<F, O, S>) -> u8
        requires { self.old.position < (model self.old.table).q ^ (model self.old.table).digits }
        ensures table { self.new.table ≡ self.old.table }
        ensures position { self.new.position ≡ self.old.position + 1 }
        ensures moved { self.new.position < (model self.old.table).q ^ (model self.old.table).digits → Moved (F.Field.means setup.now.field) (model self.old.table) ((O.Order.means setup.now.order).index self.old.position) ((O.Order.means setup.now.order).index self.new.position) self.old.coordinates self.new.coordinates result }
        ensures last { (model self.old.table).q ^ (model self.old.table).digits ≤ self.new.position → result ≡ 0 }
    {
        let (from, to) = (self.position, self.position + 1);
        self.position = to;
        if to >= self.table.positions() {
            return 0;
        }
        advance(
            &setup.field,
            &self.table,
            &mut self.coordinates,
            setup.order.index(from),
            setup.order.index(to),
        )
    }

    /// Writes the point of the position and moves one on; answers the position and the number of index digits that change.
    #[tactic(auto, using(crate::specs::Runs::call_refused))]
    pub(crate) fn step<F: Field, O: Order, S: Scrambler>(
        &mut self,
        setup: &Setup<F, O, S>,
        out: &mut [u32],
    ) -> Result<(u64, u8), Fault>
        requires { Shows (parts_of F.Field O.Order S.Scrambler setup.now) self.old }
        ensures tests { Gives (call_tests (view_of self.old) (Step (length out.old))) result (λ x. Unit {0}) }
        ensures answer { Answers (parts_of F.Field O.Order S.Scrambler setup.now) (view_of self.old) (Step (length out.old)) (step_answer result out.new) (view_of self.new) }
        ensures shows { Shows (parts_of F.Field O.Order S.Scrambler setup.now) self.new }
        ensures refused { OnErr result (self.new ≡ self.old) }
        ensures unwritten { OnErr result (out.new ≡ out.old) }
    {
        if out.len() != self.table.coordinates() as usize {
            return Err(Fault::of(Kind::WrongLength, Layer::Run));
        }
        let position = self.position;
        if self.table.positions() <= position {
            return Err(Fault::of(Kind::Finished, Layer::Run));
        }
        write_point(&setup.scrambler, &self.table, &self.coordinates, out);
        let changed = self.advance_one(setup);
        Ok((position, changed))
    }

    /// Sets the position.
    #[tactic(auto, using(crate::specs::Runs::call_refused, crate::specs::Runs::jump_accepted))]
    pub(crate) fn jump<F: Field, O: Order, S: Scrambler>(
        &mut self,
        setup: &Setup<F, O, S>,
        position: u64,
    ) -> Result<(), Fault>
        requires { Shows (parts_of F.Field O.Order S.Scrambler setup.now) self.old }
        ensures tests { Gives (call_tests (view_of self.old) (Jump position)) result (λ x. Unit {0}) }
        ensures answer { Answers (parts_of F.Field O.Order S.Scrambler setup.now) (view_of self.old) (Jump position) (jump_answer result) (view_of self.new) }
        ensures shows { Shows (parts_of F.Field O.Order S.Scrambler setup.now) self.new }
        ensures refused { OnErr result (self.new ≡ self.old) }
    {
        if position >= self.table.positions() {
            return Err(Fault::of(Kind::OutOfReach, Layer::Run));
        }
        self.coordinates = present(&setup.field, &self.table, setup.order.index(position));
        self.position = position;
        Ok(())
    }

    /// Writes the point of a position.
    #[tactic(auto, using(crate::specs::Runs::call_refused))]
    pub(crate) fn at<F: Field, O: Order, S: Scrambler>(
        &self,
        setup: &Setup<F, O, S>,
        position: u64,
        out: &mut [u32],
    ) -> Result<(), Fault>
        requires { Shows (parts_of F.Field O.Order S.Scrambler setup.now) self.now }
        ensures tests { Gives (call_tests (view_of self.now) (At position (length out.old))) result (λ x. Unit {0}) }
        ensures answer { Answers (parts_of F.Field O.Order S.Scrambler setup.now) (view_of self.now) (At position (length out.old)) (at_answer result out.new) (view_of self.now) }
        ensures refused { OnErr result (out.new ≡ out.old) }
    {
        if out.len() != self.table.coordinates() as usize {
            return Err(Fault::of(Kind::WrongLength, Layer::Run));
        }
        if position >= self.table.positions() {
            return Err(Fault::of(Kind::OutOfReach, Layer::Run));
        }
        let coordinates = present(&setup.field, &self.table, setup.order.index(position));
        write_point(&setup.scrambler, &self.table, &coordinates, out);
        Ok(())
    }

    /// The least t of every block of q^m points.
    pub(crate) fn verdict<F: Field, O: Order, S: Scrambler>(
        &self,
        setup: &Setup<F, O, S>,
        m: u8,
    ) -> Result<u8, Fault>
        requires { Shows (parts_of F.Field O.Order S.Scrambler setup.now) self.now }
        ensures tests { Gives (call_tests (view_of self.now) (Verdict m)) result (λ x. Unit {0}) }
        ensures answer { Answers (parts_of F.Field O.Order S.Scrambler setup.now) (view_of self.now) (Verdict m) (verdict_answer result) (view_of self.now) }
    {
        first_passing(&setup.field, &self.table, m)
    }
}
