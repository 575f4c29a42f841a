//! Keyed scrambling: each digit is moved by a number that a 32-bit key and the digits before it give.
ghost use Rattle.std.specs.Prelude.{◌≡◌, ◌+◌, ◌/◌, ◌%◌, ◌^◌};
ghost use Rattle.base.specs.Shapes.{HasShape};
ghost use Rattle.base.specs.Tests.{Gives};
ghost use Rattle.scramblers.specs.Keyed.{hash_next, keyed_scrambler, hash_after};
ghost use Rattle.scramblers.specs.Shapes.{shape_tests};
ghost use Rattle.scramblers.specs.Sums.{adding_keeps_laws};

use crate::scrambler::Scrambler;
use crate::words::scrambles;
use base::faults::{Fault, Layer};
use base::limits::Shape;

/// The scrambler of a 32-bit key.
#[derive(Clone, Copy, Debug, PartialEq, Eq)]
pub struct KeyedScrambler {
    shape: Shape,
    key: u32,
}

impl KeyedScrambler {
    /// Scrambling by a key, of words of some digits and coordinates.
    pub fn new(q: u8, digits: u8, coordinates: u8, key: u32) -> Result<KeyedScrambler, Fault>
        ensures { Gives (shape_tests q digits coordinates) result
            (λ x. HasShape q digits coordinates x.shape × (x.key ≡ key)) }
    {
        let shape = Shape::new(q, digits, coordinates, Layer::Making)?;
        Ok(KeyedScrambler { shape, key })
    }
}

// The hash after a digit read.
fn hash_next(hash: u32, digit: u8) -> u32
    ensures { result ≡ hash_next hash digit }
{
    (hash.rotate_left(5) ^ u32::from(digit)).wrapping_mul(2654435761)
}

impl Scrambler for KeyedScrambler {
    ghost means = { λ x. keyed_scrambler x.shape.q x.shape.digits x.shape.coordinates x.key };

    ghost keeps = { λ x.
        adding_keeps_laws x.shape.q x.shape.digits x.shape.coordinates
        (λ j before. hash_after ((x.key + j) % 2 ^ 32) before / 2 ^ 16) (x.shape.base, x.shape.width, x.shape.dimension) };

    fn q(&self) -> u8 {
        self.shape.q
    }

    fn digits(&self) -> u8 {
        self.shape.digits
    }

    fn coordinates(&self) -> u8 {
        self.shape.coordinates
    }

    fn scramble(&self, coordinate: u8, word: &mut [u8]) {
        if !scrambles(&self.shape, coordinate, word) {
            return;
        }
        let q = u32::from(self.shape.q);
        let mut hash = self.key.wrapping_add(u32::from(coordinate));
        for digit in word.iter_mut() {
            let read = *digit;
            *digit = ((u32::from(read) + (hash >> 16)) % q) as u8;
            hash = hash_next(hash, read);
        }
    }
}
