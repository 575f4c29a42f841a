//! Two scramblers, one after the other.
ghost use Rattle.std.specs.Prelude.{◌≡◌, true};
ghost use Rattle.base.specs.Tests.{Gives};
ghost use Rattle.scramblers.specs.Chain.{chain_scrambler, chain_tests, same_shape};
ghost use Rattle.scramblers.specs.Chains.{chain_keeps_laws};

use crate::scrambler::Scrambler;
use base::faults::{Fault, Kind, Layer};

/// The scrambler whose second part works on the result of the first.
#[derive(Drop)]
pub struct ChainScrambler<A: Scrambler, B: Scrambler> {
    first: A,
    second: B,
    ghost same: { same_shape (A.Scrambler.means first) (B.Scrambler.means second) ≡ true },
}

impl<A: Scrambler + Drop, B: Scrambler + Drop> ChainScrambler<A, B> {
    /// The chain of two scramblers of the same q, digits and coordinates.
    pub fn new(first: A, second: B) -> Result<ChainScrambler<A, B>, Fault>
        ensures { Gives (chain_tests (A.Scrambler.means first) (B.Scrambler.means second)) result
            (λ x. (x.first ≡ first) × (x.second ≡ second)) }
    {
        if first.q() != second.q()
            || first.digits() != second.digits()
            || first.coordinates() != second.coordinates()
        {
            return Err(Fault::of(Kind::Mismatch, Layer::Making));
        }
        Ok(ChainScrambler { first, second })
    }
}

impl<A: Scrambler, B: Scrambler> Scrambler for ChainScrambler<A, B> {
    ghost means = { λ x. chain_scrambler (A.Scrambler.means x.first) (B.Scrambler.means x.second) };

    ghost keeps = { λ x.
        chain_keeps_laws (A.Scrambler.means x.first) (B.Scrambler.means x.second) (A.Scrambler.keeps x.first)
        (B.Scrambler.keeps x.second) };

    fn q(&self) -> u8 {
        self.first.q()
    }

    fn digits(&self) -> u8 {
        self.first.digits()
    }

    fn coordinates(&self) -> u8 {
        self.first.coordinates()
    }

    fn scramble(&self, coordinate: u8, word: &mut [u8]) {
        self.first.scramble(coordinate, word);
        self.second.scramble(coordinate, word);
    }
}
