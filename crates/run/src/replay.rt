//! A list of calls, made one after the other, and the log of their replies.
ghost use Rattle.std.specs.Prelude.{◌≡◌, ◌≤◌, length, OnErr};
ghost use Rattle.base.specs.Tables.{SameTable, TableModel};
ghost use Rattle.base.specs.Tests.{Gives};
ghost use Rattle.tables.specs.Sobol.{sobol_table};
ghost use Rattle.tables.specs.Table.{model};
ghost use Rattle.run.specs.Law.{History};
ghost use Rattle.run.specs.Runs.{Answers};
ghost use Rattle.run.specs.Setups.{parts_of};
ghost use Rattle.run.specs.States.{view};
ghost use Rattle.run.specs.declared.replay.Call.TheVariants.{Step, At};

use crate::run::Run;
use base::digits::padded;
use base::faults::{Fault, Kind, Layer};
use fields::field::Field;
use orders::order::Order;
use scramblers::scrambler::Scrambler;
use tables::sobol::sobol_table;
use tables::table::Table;

/// A call of a run. `room` is the number of places of the buffer that it is given.
#[derive(Clone, Copy, PartialEq, Eq, Debug)]
pub enum Call {
    Step { room: u8 },
    Jump { position: u64 },
    At { position: u64, room: u8 },
    Verdict { m: u8 },
}

/// The numerators of a point.
#[derive(Clone, Copy, PartialEq, Eq, Debug)]
pub struct Point {
    // No point asks for memory: the numerators past the coordinates are spare.
    pub numerators: [u32; 8],
    pub coordinates: u8,
}

/// What a run answers to a call that it accepts.
#[derive(Clone, Copy, PartialEq, Eq, Debug)]
pub enum Outcome {
    Stepped {
        position: u64,
        changed: u8,
        point: Point,
    },
    Jumped,
    Pointed {
        point: Point,
    },
    Least {
        t: u8,
    },
}

/// What a run answers to a call.
pub type Reply = Result<Outcome, Fault>;

impl Point {
    ghost use Rattle.run.specs.Replays.{numerators_of};

    // The point in a buffer; what is past the eighth place is left out.
    fn new(buffer: &[u32]) -> Point
        ensures { length buffer.now ≤ 8 → numerators_of result ≡ buffer.now }
    {
        Point {
            numerators: padded(buffer, 0),
            coordinates: buffer.len().min(8) as u8,
        }
    }

    /// The numerators, one for each coordinate.
    pub fn numerators(&self) -> &[u32]
        ensures { result.now ≡ numerators_of self.now }
    {
        &self.numerators[..usize::from(self.coordinates).min(8)]
    }
}

impl<F: Field + Drop, O: Order + Drop, S: Scrambler + Drop> Run<F, O, S> {
    ghost use Rattle.run.specs.Replays.{Replayed, answer_of, log_of, replay_list_tests, replay_tests};

    // A step into a buffer, and what it answers.
    fn step_reply(&mut self, buffer: &mut [u32]) -> Reply
        ensures answer { Answers (parts_of F.Field O.Order S.Scrambler self.old.setup) (view self.old.state) (Step (length buffer.old)) (answer_of result) (view self.new.state) }
        ensures same { self.new.setup ≡ self.old.setup }
    {
        let (position, changed) = self.step(buffer)?;
        Ok(Outcome::Stepped {
            position,
            changed,
            point: Point::new(buffer),
        })
    }

    // The point of a position in a buffer, and what it answers.
    fn at_reply(&self, position: u64, buffer: &mut [u32]) -> Reply
        ensures { Answers (parts_of F.Field O.Order S.Scrambler self.now.setup) (view self.now.state) (At position (length buffer.old)) (answer_of result) (view self.now.state) }
    {
        self.at(position, buffer)?;
        Ok(Outcome::Pointed {
            point: Point::new(buffer),
        })
    }

    // Makes a call.
    fn make(&mut self, call: Call) -> Reply
        ensures answer { Answers (parts_of F.Field O.Order S.Scrambler self.old.setup) (view self.old.state) call (answer_of result) (view self.new.state) }
        ensures same { self.new.setup ≡ self.old.setup }
    {
        let mut buffer = [0u32; 256];
        match call {
            Call::Step { room } => self.step_reply(&mut buffer[..room as usize]),
            Call::Jump { position } => {
                self.jump(position)?;
                Ok(Outcome::Jumped)
            }
            Call::At { position, room } => self.at_reply(position, &mut buffer[..room as usize]),
            Call::Verdict { m } => Ok(Outcome::Least {
                t: self.verdict(m)?,
            }),
        }
    }

    // Makes the calls, and writes what each answers.
    fn make_all(&mut self, calls: &[Call], log: &mut [Reply])
        requires { length log.old ≡ length calls.now }
        ensures history { History (parts_of F.Field O.Order S.Scrambler self.old.setup) (view self.old.state) (log_of calls.now log.new) (view self.new.state) }
        ensures same { self.new.setup ≡ self.old.setup }
    {
        // The log is written by index; tried: what a `zip` over `iter_mut` leaves in it is not known to a proof.
        for (i, call) in calls.iter().enumerate() {
            log[i] = self.make(*call);
        }
    }

    /// Opens a table and makes the calls of a list, in order; the log holds what each answered. The law over every list of calls holds
    /// of this log.
    pub fn replay(&mut self, table: &Table, calls: &[Call], log: &mut [Reply]) -> Result<(), Fault>
        ensures answer { Gives (replay_tests (parts_of F.Field O.Order S.Scrambler self.old.setup) (model table.now) (length calls.now) (length log.old)) result (λ _. Replayed (parts_of F.Field O.Order S.Scrambler self.old.setup) (model table.now) (log_of calls.now log.new) self.new.state) }
        ensures same { self.new.setup ≡ self.old.setup }
        ensures refused { OnErr result (self.new ≡ self.old) }
        ensures unwritten { OnErr result (log.new ≡ log.old) }
    {
        if log.len() != calls.len() {
            return Err(Fault::of(Kind::WrongLength, Layer::Run));
        }
        self.open(table)?;
        self.make_all(calls, log);
        Ok(())
    }

    /// The same from a direction list and M: it opens the list's Sobol' table and makes the calls.
    pub fn replay_list(
        &mut self,
        list: &[u8],
        digits: u8,
        calls: &[Call],
        log: &mut [Reply],
    ) -> Result<(), Fault>
        ensures answer { Gives (replay_list_tests (parts_of F.Field O.Order S.Scrambler self.old.setup) list.now digits (length calls.now) (length log.old)) result (λ _. (T : TableModel) × SameTable T (sobol_table list.now digits) × Replayed (parts_of F.Field O.Order S.Scrambler self.old.setup) T (log_of calls.now log.new) self.new.state) }
        ensures same { self.new.setup ≡ self.old.setup }
        ensures refused { OnErr result (self.new ≡ self.old) }
        ensures unwritten { OnErr result (log.new ≡ log.old) }
    {
        if log.len() != calls.len() {
            return Err(Fault::of(Kind::WrongLength, Layer::Run));
        }
        let table = sobol_table(list, digits)?;
        self.replay(&table, calls, log)
    }
}
