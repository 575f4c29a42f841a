//! The run.
ghost use Rattle.std.specs.Prelude.{◌≡◌, ◌++◌, length, OnErr};
ghost use Rattle.base.specs.Tables.{SameTable, TableModel};
ghost use Rattle.base.specs.Tests.{Gives};
ghost use Rattle.tables.specs.Sobol.{sobol_table, sobol_tests};
ghost use Rattle.tables.specs.Table.{model};
ghost use Rattle.run.specs.Runs.{Answers, call_tests, empty, open_tests};
ghost use Rattle.run.specs.Setups.{parts_of};
ghost use Rattle.run.specs.States.{Consistent, Opens, at_answer, jump_answer, step_answer, verdict_answer, view};
ghost use Rattle.run.specs.declared.replay.Call.TheVariants.{Step, Jump, At, Verdict};

use crate::opened::{Open, Setup};
use base::faults::{Fault, Kind, Layer};
use fields::field::Field;
use orders::order::Order;
use scramblers::scrambler::Scrambler;
use tables::sobol::sobol_table;
use tables::table::Table;

/// A run around a field, an order and a scrambler: empty, or a table with a position.
#[derive(Drop)]
pub struct Run<F: Field, O: Order, S: Scrambler> {
    setup: Setup<F, O, S>,
    state: Option<Open>,
    pub ghost consistent: { Consistent (parts_of F.Field O.Order S.Scrambler setup) state },
}

impl<F: Field + Drop, O: Order + Drop, S: Scrambler + Drop> Run<F, O, S> {
    /// An empty run.
    pub fn new(field: F, order: O, scrambler: S) -> Run<F, O, S>
        ensures parts { (result.setup.field ≡ field) × (result.setup.order ≡ order) × (result.setup.scrambler ≡ scrambler) }
        ensures empty { view result.state ≡ empty }
    {
        Run {
            setup: Setup {
                field,
                order,
                scrambler,
            },
            state: None,
        }
    }

    /// Opens a copy of a table, at position 0. The law over every list of calls holds from there.
    pub fn open(&mut self, table: &Table) -> Result<(), Fault>
        ensures answer { Gives (open_tests (parts_of F.Field O.Order S.Scrambler self.old.setup) (model table.now)) result (λ _. Opens (parts_of F.Field O.Order S.Scrambler self.old.setup) (model table.now) self.new.state) }
        // That the setup stays is promised by each call that changes the run; a type cannot say it of two states.
        ensures same { self.new.setup ≡ self.old.setup }
        ensures refused { OnErr result (self.new ≡ self.old) }
    {
        if !self.setup.agrees(table) {
            return Err(Fault::of(Kind::Mismatch, Layer::Run));
        }
        self.state = Some(Open::new(&self.setup, table));
        Ok(())
    }

    /// Opens the Sobol' table of a direction list, at position 0. The law over every list of calls holds from there.
    pub fn start(&mut self, list: &[u8], digits: u8) -> Result<(), Fault>
        ensures answer { Gives (sobol_tests list.now digits ++ open_tests (parts_of F.Field O.Order S.Scrambler self.old.setup) (sobol_table list.now digits)) result (λ _. (T : TableModel) × SameTable T (sobol_table list.now digits) × Opens (parts_of F.Field O.Order S.Scrambler self.old.setup) T self.new.state) }
        ensures same { self.new.setup ≡ self.old.setup }
        ensures refused { OnErr result (self.new ≡ self.old) }
    {
        let table = sobol_table(list, digits)?;
        self.open(&table)
    }

    /// Writes the point of the position and moves one on. Answers the position that was handed out and the number of index digits
    /// that change to the next one, 0 at the last.
    #[tactic(auto, using(crate::specs::Runs::call_refused, crate::proofs::Same::same_if_refused))]
    pub fn step(&mut self, out: &mut [u32]) -> Result<(u64, u8), Fault>
        ensures tests { Gives (call_tests (view self.old.state) (Step (length out.old))) result (λ x. Unit {0}) }
        ensures answer { Answers (parts_of F.Field O.Order S.Scrambler self.old.setup) (view self.old.state) (Step (length out.old)) (step_answer result out.new) (view self.new.state) }
        ensures same { self.new.setup ≡ self.old.setup }
        ensures refused { OnErr result (self.new ≡ self.old) }
        ensures unwritten { OnErr result (out.new ≡ out.old) }
    {
        let Some(state) = &mut self.state else {
            return Err(Fault::of(Kind::EmptyRun, Layer::Run));
        };
        state.step(&self.setup, out)
    }

    /// Sets the position.
    #[tactic(auto, using(crate::specs::Runs::call_refused, crate::proofs::Same::same_if_refused))]
    pub fn jump(&mut self, position: u64) -> Result<(), Fault>
        ensures tests { Gives (call_tests (view self.old.state) (Jump position)) result (λ x. Unit {0}) }
        ensures answer { Answers (parts_of F.Field O.Order S.Scrambler self.old.setup) (view self.old.state) (Jump position) (jump_answer result) (view self.new.state) }
        ensures same { self.new.setup ≡ self.old.setup }
        ensures refused { OnErr result (self.new ≡ self.old) }
    {
        let Some(state) = &mut self.state else {
            return Err(Fault::of(Kind::EmptyRun, Layer::Run));
        };
        state.jump(&self.setup, position)
    }

    /// Writes the point of a position, and moves nothing.
    #[tactic(auto, using(crate::specs::Runs::call_refused))]
    pub fn at(&self, position: u64, out: &mut [u32]) -> Result<(), Fault>
        ensures tests { Gives (call_tests (view self.now.state) (At position (length out.old))) result (λ x. Unit {0}) }
        ensures answer { Answers (parts_of F.Field O.Order S.Scrambler self.now.setup) (view self.now.state) (At position (length out.old)) (at_answer result out.new) (view self.now.state) }
        ensures refused { OnErr result (out.new ≡ out.old) }
    {
        let Some(state) = &self.state else {
            return Err(Fault::of(Kind::EmptyRun, Layer::Run));
        };
        state.at(&self.setup, position, out)
    }

    /// The least t of every block of q^m points, from the table and the field alone. It moves nothing.
    #[tactic(auto, using(crate::specs::Runs::call_refused))]
    pub fn verdict(&self, m: u8) -> Result<u8, Fault>
        ensures tests { Gives (call_tests (view self.now.state) (Verdict m)) result (λ x. Unit {0}) }
        ensures answer { Answers (parts_of F.Field O.Order S.Scrambler self.now.setup) (view self.now.state) (Verdict m) (verdict_answer result) (view self.now.state) }
    {
        let Some(state) = &self.state else {
            return Err(Fault::of(Kind::EmptyRun, Layer::Run));
        };
        state.verdict(&self.setup, m)
    }
}
