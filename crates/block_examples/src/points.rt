//! Points by the point formula, and the least t of their blocks by counting.
ghost use Rattle.std.specs.Prelude.{◌≡◌, ◌+◌, ◌-◌, ◌^◌, ◌<◌, ◌≤◌, ◌↔◌, length, IfOk, IsOk};
ghost use Rattle.base.specs.Blocks.{BlockWithin, block_points};
ghost use Rattle.base.specs.Nets.{Least};
ghost use Rattle.base.specs.Points.{numerator, point, row as row_of, word as word_of};
ghost use Rattle.checks.specs.Counting.{points_of};
ghost use Rattle.nets.specs.Theorem.{BlockNet};
ghost use Rattle.run.specs.Runs.{Agree, parts};
ghost use Rattle.tables.specs.Table.{model};

use anyhow::anyhow;
use base::digits::number_of;
use checks::check::least_t;
use fields::field::Field;
use orders::order::Order;
use run::agree::agree;
use scramblers::scrambler::Scrambler;
use std::alloc::{AllocError, Global};
use tables::table::Table;

/// What points are made of: a table, with a field, an order and a scrambler that have its q, M and s.
///
/// A point is computed as the formula is written: each row by itself, with nothing kept from one point to the next.
#[derive(Drop)]
pub struct Points<'a, F: Field, O: Order, S: Scrambler> {
    field: &'a F,
    order: &'a O,
    scrambler: &'a S,
    pub table: &'a Table,
    ghost agree: { Agree
        (parts (F.Field.means field.now) (O.Order.means order.now) (S.Scrambler.means scrambler.now))
        (model table.now) },
}

impl<'a, F: Field, O: Order, S: Scrambler> Points<'a, F, O, S> {
    /// The points of a table, by some parts; an error for parts of another q, M or s than the table's.
    pub fn new(
        field: &'a F,
        order: &'a O,
        scrambler: &'a S,
        table: &'a Table,
    ) -> anyhow::Result<Points<'a, F, O, S>>
        ensures fit { IsOk result
            ↔ Agree
            (parts (F.Field.means field.now) (O.Order.means order.now) (S.Scrambler.means scrambler.now))
            (model table.now) }
        ensures field { IfOk result (λ points. points.field.now ≡ field.now) }
        ensures order { IfOk result (λ points. points.order.now ≡ order.now) }
        ensures scrambler { IfOk result (λ points. points.scrambler.now ≡ scrambler.now) }
        ensures table { IfOk result (λ points. points.table.now ≡ table.now) }
    {
        if agree(field, order, scrambler, table) {
            Ok(Points {
                field,
                order,
                scrambler,
                table,
            })
        } else {
            Err(anyhow!("parts that do not belong together"))
        }
    }

    // A coordinate is a number here, as `Table::entry` and a scrambler take it: a type of its own would be unpacked at each.
    // A row of a coordinate at an index: the sum over the columns of the table's digit times the index's.
    fn row(&self, coordinate: u8, row: u8, index: u64) -> u8
        requires coordinate { coordinate < (model self.now.table.now).coordinates }
        requires least { 1 ≤ row }
        requires most { row ≤ (model self.now.table.now).digits }
        ensures { result ≡ row_of (F.Field.means self.now.field.now) (model self.now.table.now) coordinate index row }
    {
        let q = u64::from(self.table.q());
        let mut rest = index;
        let mut sum = 0;
        // The sum and the rest of the index go on together, which a fold over pairs would only hide.
        for column in 0..self.table.digits() {
            let Some(entry) = self.table.entry(coordinate, row, column) else {
                unreachable!()
            };
            sum = self.field.add(sum, self.field.mul(entry, (rest % q) as u8));
            rest /= q;
        }
        sum
    }

    // Writes the word of a coordinate at an index: its rows, the first first.
    fn write_word(&self, coordinate: u8, index: u64, word: &mut [u8])
        requires coordinate { coordinate < (model self.now.table.now).coordinates }
        requires size { length word.old ≡ (model self.now.table.now).digits }
        ensures { word.new ≡ word_of (F.Field.means self.now.field.now) (model self.now.table.now) coordinate index }
    {
        for (row, digit) in word.iter_mut().enumerate() {
            *digit = self.row(coordinate, row as u8 + 1, index);
        }
    }

    // The numerator of a coordinate at an index: the number of its scrambled word.
    fn numerator(&self, coordinate: u8, index: u64) -> u32
        requires { coordinate < (model self.now.table.now).coordinates }
        ensures { result ≡ numerator (model self.now.table.now).q
            ((S.Scrambler.means self.now.scrambler.now).scramble coordinate
            (word_of (F.Field.means self.now.field.now) (model self.now.table.now) coordinate index)) }
    {
        let mut digits = [0u8; 32];
        let word = &mut digits[..self.table.digits() as usize];
        self.write_word(coordinate, index, word);
        self.scrambler.scramble(coordinate, word);
        number_of(word, self.table.q())
    }

    // Writes the point of a position: the numerator of each coordinate at the order's index.
    fn write_point(&self, position: u64, out: &mut [u32])
        requires { length out.old ≡ (model self.now.table.now).coordinates }
        ensures { out.new ≡ point (F.Field.means self.now.field.now) (O.Order.means self.now.order.now)
            (S.Scrambler.means self.now.scrambler.now) (model self.now.table.now) position }
    {
        let index = self.order.index(position);
        for (coordinate, numerator) in out.iter_mut().enumerate() {
            *numerator = self.numerator(coordinate as u8, index);
        }
    }

    // A power of the table's q, at most that to its number of digits.
    fn power(&self, exponent: u8) -> u64
        requires { exponent ≤ (model self.now.table.now).digits }
        ensures { result ≡ (model self.now.table.now).q ^ exponent }
    {
        u64::from(self.table.q()).pow(u32::from(exponent))
    }

    /// The number of the last block of q^m points.
    pub(crate) fn last_block(&self, m: u8) -> u64
        requires { m ≤ (model self.now.table.now).digits }
        ensures { result + 1 ≡ (model self.now.table.now).q ^ ((model self.now.table.now).digits - m) }
    {
        self.power(self.table.digits() - m) - 1
    }

    // The points of a block, one after the other.
    fn block_points(&self, heap: Global, m: u8, block: u64) -> Result<Vec<u32>, AllocError>
        requires { BlockWithin (model self.now.table.now) m block }
        ensures { IfOk result (λ numerators.
            points_of (model self.now.table.now).coordinates ((model self.now.table.now).q ^ m) numerators.items
            ≡ block_points (F.Field.means self.now.field.now) (O.Order.means self.now.order.now)
            (S.Scrambler.means self.now.scrambler.now) (model self.now.table.now) m block) }
    {
        let size = self.power(m);
        let first = block * size;
        // Room for all at once, so that memory is asked for once.
        let room = size as usize * self.table.coordinates() as usize;
        let mut numerators = Vec::with_capacity(heap, room)?;
        let mut point = [0u32; 8];
        let point = &mut point[..self.table.coordinates() as usize];
        for position in first..first + size {
            self.write_point(position, point);
            numerators.extend_from_slice(point)?;
        }
        Ok(numerators)
    }

    /// The least t of a block of q^m points, by counting; an error for a block that the table does not have, for more points
    /// than the check takes, or where memory is short.
    pub fn least_of_block(&self, heap: Global, m: u8, block: u64) -> anyhow::Result<u8>
        ensures { IfOk result (Least
            (BlockNet (F.Field.means self.now.field.now) (O.Order.means self.now.order.now)
            (S.Scrambler.means self.now.scrambler.now) (model self.now.table.now) m block)) }
    {
        if m > self.table.digits() || block > self.last_block(m) {
            return Err(anyhow!("a block that the table does not have"));
        }
        let points = self.block_points(heap, m, block)?;
        let mut counters = [0u32; 4096];
        Ok(least_t(
            self.table.q(),
            self.table.digits(),
            self.table.coordinates(),
            m,
            points.as_slice(),
            &mut counters,
        )?)
    }
}
