//! A shape with the powers of its q, and the cells of a split.
ghost use Rattle.std.specs.Prelude.{◌≡◌, ℕ, ◌^◌, ◌<◌, ◌≤◌, length, slice_index};
ghost use Rattle.std.specs.Option.{SomeIff};
ghost use Rattle.base.specs.Digits.{AllDigits};
ghost use Rattle.base.specs.Nets.{total};
ghost use Rattle.checks.specs.Counting.{InReach, cell_of};

use base::limits::Shape;

/// A shape, with q^0 to q^digits.
#[derive(Clone, Copy)]
pub(crate) struct Grid {
    pub(crate) shape: Shape,
    // A fixed array, since nothing may ask for heap memory.
    pub(crate) powers: [u64; 33],
    ghost powers_are: { (i : ℕ) → i ≤ shape.digits → slice_index powers i ≡ shape.q ^ i },
}

impl Grid {
    // The grid of a shape.
    pub(crate) fn new(shape: Shape) -> Grid
        ensures { result.shape ≡ shape }
    {
        let q = u64::from(shape.q);
        let mut powers = [1u64; 33];
        let mut power = 1;
        // Each power from the one before it, and none past q^digits: for a few points making the grid is most of the check.
        for place in powers[1..=usize::from(shape.digits)].iter_mut() {
            power *= q;
            *place = power;
        }
        Grid { shape, powers }
    }

    // The number of points of a block, q^m; none where m or q^m is too large.
    pub(crate) fn block_size(&self, m: u8) -> Option<usize>
        ensures { SomeIff result (InReach self.now.shape.q self.now.shape.digits m) (self.now.shape.q ^ m) }
    {
        if m > self.shape.digits {
            return None;
        }
        let size = self.powers[m as usize];
        if size <= 4096 {
            Some(size as usize)
        } else {
            None
        }
    }

    // The number of a point's cell. What counts fit stands in clauses: a `Splits` in their place would say it of its own numbers.
    pub(crate) fn cell_of(&self, counts: &[u8], point: &[u32]) -> u64
        requires each { length point.now ≡ length counts.now }
        requires within { total counts.now ≤ self.now.shape.digits }
        requires digits { AllDigits (self.now.shape.q ^ self.now.shape.digits) point.now }
        ensures value { result ≡ cell_of self.now.shape.q self.now.shape.digits 0 counts.now point.now }
        ensures bound { result < self.now.shape.q ^ total counts.now }
    {
        let digits = self.shape.digits as usize;
        let mut cell = 0u64;
        for (d, x) in counts.iter().zip(point) {
            let d = *d as usize;
            cell = cell * self.powers[d] + u64::from(*x) / self.powers[digits - d];
        }
        cell
    }
}
