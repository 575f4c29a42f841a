//! Blocks of points, counted in the cells of splits.
ghost use Rattle.std.specs.Prelude.{◌≡◌, ℕ, ◌-◌, ◌*◌, ◌^◌, ◌<◌, ◌≤◌, ◌↔◌, IsTrue, List, length, replicate, nat_eq, slice_index};
ghost use Rattle.base.specs.Digits.{AllDigits};
ghost use Rattle.base.specs.Nets.{Even, Least, Net, Split, count, total};
ghost use Rattle.base.specs.Tests.{Gives};
ghost use Rattle.checks.specs.Counting.{block_tests, cell_of, points_of};

use crate::grid::Grid;
use crate::numerators::check_numerators;
use base::faults::{Fault, Kind, Layer};
use base::limits::Shape;
use base::splits::Splits;

// Whether each counter has the same value.
fn all_equal(counters: &[u32], expected: u32) -> bool
    ensures { IsTrue result ↔ ((c : ℕ) → c < length counters.now → slice_index counters.now c ≡ expected) }
{
    counters.iter().all(|counter| *counter == expected)
}

// Sets each counter to 0. By a rule of the project the counting check loops over points and counters; std has `fill`.
pub(crate) fn clear(counters: &mut [u32])
    ensures { counters.new ≡ replicate (length counters.old) 0 }
{
    for counter in counters.iter_mut() {
        *counter = 0;
    }
}

/// A block of q^m points, one after the other, of which each numerator is below q^digits.
#[derive(Clone, Copy)]
pub(crate) struct Block<'a> {
    grid: Grid,
    m: u8,
    pub(crate) size: usize,
    points: &'a [u32],
    ghost reach: { m ≤ grid.shape.digits },
    ghost power: { size ≡ grid.shape.q ^ m },
    ghost few: { size ≤ 4096 },
    ghost whole: { length points.now ≡ size * grid.shape.coordinates },
    ghost small: { AllDigits (grid.shape.q ^ grid.shape.digits) points.now },
}

// The counters stay a parameter with their length: a block that held the caller's would have to give them back each time.
impl<'a> Block<'a> {
    // The block of some points, which is counted in so many counters.
    pub(crate) fn new(
        shape: Shape,
        m: u8,
        points: &'a [u32],
        counters: usize,
    ) -> Result<Block<'a>, Fault>
        ensures { Gives (block_tests shape.q shape.digits shape.coordinates m points.now counters) result (λ b. (b.grid.shape ≡ shape) × (b.m ≡ m) × (b.points.now ≡ points.now) × (b.size ≤ counters)) }
    {
        let grid = Grid::new(shape);
        let size = grid
            .block_size(m)
            .ok_or(Fault::of(Kind::OutOfReach, Layer::Check))?;
        if points.len() != size * shape.coordinates as usize || counters < size {
            return Err(Fault::of(Kind::WrongLength, Layer::Check));
        }
        check_numerators(points, shape.positions, Layer::Check)?;
        Ok(Block {
            grid,
            m,
            size,
            points,
        })
    }

    // Counts the points in each cell of a split.
    fn tally(&self, counts: &[u8], cells: &mut [u32])
        requires each { length counts.now ≡ self.now.grid.shape.coordinates }
        requires within { total counts.now ≤ self.now.grid.shape.digits }
        requires sizes { length cells.old ≡ self.now.grid.shape.q ^ total counts.now }
        ensures { (c : ℕ) → c < length cells.new → slice_index cells.new c ≡ count (λ p. nat_eq (cell_of self.now.grid.shape.q self.now.grid.shape.digits 0 counts.now p) c) (points_of self.now.grid.shape.coordinates self.now.size self.now.points.now) }
    {
        clear(cells);
        let s = self.grid.shape.coordinates as usize;
        for point in self.points.chunks_exact(s) {
            let cell = self.grid.cell_of(counts, point);
            cells[cell as usize] += 1;
        }
    }

    // Whether each cell of a split of m - t holds q^t points.
    fn split_is_even(&self, t: u8, counts: &[u8], counters: &mut [u32]) -> bool
        requires within { t ≤ self.now.m }
        requires split { Split self.now.grid.shape.coordinates (self.now.m - t) counts.now }
        requires room { length counters.old ≡ self.now.size }
        ensures { IsTrue result ↔ Even self.now.grid.shape.q self.now.grid.shape.digits (self.now.grid.shape.q ^ t) (points_of self.now.grid.shape.coordinates self.now.size self.now.points.now) counts.now }
    {
        let expected = self.grid.powers[t as usize] as u32;
        let cells = &mut counters[..self.grid.powers[(self.m - t) as usize] as usize];
        self.tally(counts, cells);
        all_equal(cells, expected)
    }

    // Whether each cell of each split of m - t holds q^t points. The verdict goes through the splits in the same way: one function
    // for both would take a closure that changes the counters.
    fn all_splits_even(&self, t: u8, counters: &mut [u32]) -> bool
        requires within { t ≤ self.now.m }
        requires room { length counters.old ≡ self.now.size }
        ensures { IsTrue result ↔ ((counts : List ℕ) → Split self.now.grid.shape.coordinates (self.now.m - t) counts → Even self.now.grid.shape.q self.now.grid.shape.digits (self.now.grid.shape.q ^ t) (points_of self.now.grid.shape.coordinates self.now.size self.now.points.now) counts) }
    {
        let mut at = Splits::first(self.grid.shape.coordinates, self.m - t);
        while let Some(splits) = at {
            if !self.split_is_even(t, splits.counts(), counters) {
                return false;
            }
            at = splits.next();
        }
        true
    }

    // The least t for which the points form a net. A loop, since a closure given to `find` would change the counters.
    pub(crate) fn least_t(&self, counters: &mut [u32]) -> u8
        requires { length counters.old ≡ self.now.size }
        ensures { Least (λ t. Net self.now.grid.shape.q self.now.grid.shape.digits self.now.grid.shape.coordinates t self.now.m (points_of self.now.grid.shape.coordinates self.now.size self.now.points.now)) result }
    {
        for t in 0..self.m {
            if self.all_splits_even(t, counters) {
                return t;
            }
        }
        self.m
    }
}
