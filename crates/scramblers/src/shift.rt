//! Digital shifts.
ghost use Rattle.std.specs.Prelude.{ℕ, ◌<◌, slice_index};

use crate::scrambler::Scrambler;
use crate::words::scrambles;
use base::digits::{check_digits, padded};
use base::faults::{Fault, Kind, Layer};
use base::limits::Shape;

/// The scrambler that adds a key digit to each digit of each coordinate, modulo q.
#[derive(Clone, Copy, Debug, PartialEq, Eq)]
pub struct ShiftScrambler {
    shape: Shape,
    // The key digits as they come, coordinate by coordinate, so that one copy keeps them; the rest is 0.
    // An array, since nothing here may ask for heap memory.
    key: [u8; 256],
    ghost digits: { (i : ℕ) → slice_index key i < shape.q },
}

impl ShiftScrambler {
    ghost use Rattle.base.specs.Tests.{Gives};
    ghost use Rattle.scramblers.specs.Keys.{KeptKey};
    ghost use Rattle.scramblers.specs.Shift.{shift_tests};

    /// The shift by a key of one digit for each place, coordinate by coordinate.
    pub fn new(q: u8, digits: u8, coordinates: u8, key: &[u8]) -> Result<ShiftScrambler, Fault>
        ensures { Gives (shift_tests q digits coordinates key.now) result (KeptKey q digits coordinates key.now) }
    {
        let shape = Shape::new(q, digits, coordinates, Layer::Making)?;
        if key.len() != usize::from(coordinates) * usize::from(digits) {
            return Err(Fault::of(Kind::WrongLength, Layer::Making));
        }
        check_digits(key, q, Layer::Making)?;
        Ok(ShiftScrambler {
            shape,
            key: padded(key, 0),
        })
    }
}

impl Scrambler for ShiftScrambler {
    ghost use Rattle.std.specs.Prelude.{◌+◌, ◌*◌, length};
    ghost use Rattle.scramblers.specs.Shift.{shift_scrambler};
    ghost use Rattle.scramblers.specs.Sums.{adding_keeps_laws};

    ghost means = { λ x. shift_scrambler x.shape.q x.shape.digits x.shape.coordinates x.key };

    ghost keeps = { λ x.
        adding_keeps_laws x.shape.q x.shape.digits x.shape.coordinates
        (λ j before. slice_index x.key (j * x.shape.digits + length before)) (x.shape.base, x.shape.width, x.shape.dimension) };

    fn q(&self) -> u8 {
        self.shape.q
    }

    fn digits(&self) -> u8 {
        self.shape.digits
    }

    fn coordinates(&self) -> u8 {
        self.shape.coordinates
    }

    fn scramble(&self, coordinate: u8, word: &mut [u8]) {
        if !scrambles(&self.shape, coordinate, word) {
            return;
        }
        let first = usize::from(coordinate) * usize::from(self.shape.digits);
        // The key is read by place; tried: what a `zip` over `iter_mut` leaves in the word is not known to a proof.
        for (place, digit) in word.iter_mut().enumerate() {
            *digit = (*digit + self.key[first + place]) % self.shape.q;
        }
    }
}
