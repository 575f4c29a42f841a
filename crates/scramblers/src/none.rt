//! No scrambling.
ghost use Rattle.base.specs.Shapes.{HasShape};
ghost use Rattle.base.specs.Tests.{Gives};
ghost use Rattle.scramblers.specs.None.{no_scrambler};
ghost use Rattle.scramblers.specs.Shapes.{shape_tests};
ghost use Rattle.std.specs.Prelude.{[], refl};
ghost use Rattle.std.proofs.Common.{sym};
ghost use Rattle.scramblers.specs.Prefixes.{kept_by_prefix, prefix_rule_laws};

use crate::scrambler::Scrambler;
use base::faults::{Fault, Layer};
use base::limits::Shape;

/// The scrambler that keeps each word.
#[derive(Clone, Copy, Debug, PartialEq, Eq)]
pub struct NoScrambler {
    shape: Shape,
}

impl NoScrambler {
    /// No scrambling, of words of some digits and coordinates.
    pub fn new(q: u8, digits: u8, coordinates: u8) -> Result<NoScrambler, Fault>
        ensures { Gives (shape_tests q digits coordinates) result (λ x. HasShape q digits coordinates x.shape) }
    {
        let shape = Shape::new(q, digits, coordinates, Layer::Making)?;
        Ok(NoScrambler { shape })
    }
}

impl Scrambler for NoScrambler {
    ghost means = { λ x. no_scrambler x.shape.q x.shape.digits x.shape.coordinates };

    ghost keeps = { λ x.
        prefix_rule_laws x.shape.q x.shape.digits x.shape.coordinates (λ _ _ a. a) (λ _ word. word)
        (x.shape.base, x.shape.width, x.shape.dimension) (λ _ u _ _. sym (kept_by_prefix [] u)) (λ _ _ _. refl)
        (λ _ _ _ _ _ _ h. h) (λ _ _ _ _ _ _ _ _ _ e. e) };

    fn q(&self) -> u8 {
        self.shape.q
    }

    fn digits(&self) -> u8 {
        self.shape.digits
    }

    fn coordinates(&self) -> u8 {
        self.shape.coordinates
    }

    fn scramble(&self, _coordinate: u8, _word: &mut [u8]) {}
}
