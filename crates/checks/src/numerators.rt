//! The test of numerators.
ghost use Rattle.std.specs.Prelude.{MatchOption};
ghost use Rattle.base.specs.Digits.{AllDigits, FirstBad, digit_tests};
ghost use Rattle.base.specs.Faults.{layer_number};
ghost use Rattle.base.specs.Tests.{Gives};

use base::faults::{Fault, Kind, Layer};

// Tried as one with base's `first_bad_digit`: std's `Into` gives a proof only a relation, so a generic one would promise less.
/// The index of the first numerator that is `positions` or more; none where all are below it.
pub fn first_bad_numerator(numerators: &[u32], positions: u64) -> Option<usize>
    ensures { MatchOption result (AllDigits positions numerators.now) (FirstBad positions numerators.now) }
{
    numerators.iter().position(|x| u64::from(*x) >= positions)
}

// Refuses numerators of which one is `positions` or more: the place is the index of the first.
// As base's `check_digits`: what one function could share is the match, two lines for two.
#[tactic(auto, using(base::proofs::Testing::digits_refused, base::proofs::Testing::digits_clean))]
pub(crate) fn check_numerators(
    numerators: &[u32],
    positions: u64,
    layer: Layer,
) -> Result<(), Fault>
    ensures { Gives (digit_tests positions (layer_number layer) numerators.now) result (λ _. AllDigits positions numerators.now) }
{
    match first_bad_numerator(numerators, positions) {
        Some(place) => Err(Fault::at(Kind::BadDigit, layer, place)),
        None => Ok(()),
    }
}
