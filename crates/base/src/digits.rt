//! The test of bytes that should be digits, their number, and keeping them in an array.
ghost use Rattle.std.specs.Prelude.{◌≡◌, ℕ, ◌%◌, ◌^◌, ◌<◌, MatchOption, slice_index_or};
ghost use Rattle.base.specs.Digits.{AllDigits, FirstBad, digit_tests};
ghost use Rattle.base.specs.Faults.{layer_number};
ghost use Rattle.base.specs.Points.{numerator};
ghost use Rattle.base.specs.Tests.{Gives};

use crate::faults::{Fault, Kind, Layer};

/// The index of the first byte that is no digit, being q or more; none where all are digits.
pub fn first_bad_digit(bytes: &[u8], q: u8) -> Option<usize>
    ensures { MatchOption result (AllDigits q bytes.now) (FirstBad q bytes.now) }
{
    bytes.iter().position(|byte| *byte >= q)
}

/// Refuses bytes of which one is no digit, being q or more: the place is the index of the first.
#[tactic(auto, using(crate::proofs::Testing::digits_refused, crate::proofs::Testing::digits_clean))]
pub fn check_digits(bytes: &[u8], q: u8, layer: Layer) -> Result<(), Fault>
    ensures { Gives (digit_tests q (layer_number layer) bytes.now) result (λ _. AllDigits q bytes.now) }
{
    match first_bad_digit(bytes, q) {
        Some(place) => Err(Fault::at(Kind::BadDigit, layer, place)),
        None => Ok(()),
    }
}

/// The number that the digits of a word make in base q, first digit highest, as far as 32 bits hold it.
pub fn number_of(word: &[u8], q: u8) -> u32
    ensures { result ≡ numerator q word.now % 2 ^ 32 }
{
    word.iter().fold(0u32, |number, digit| {
        number
            .wrapping_mul(u32::from(q))
            .wrapping_add(u32::from(*digit))
    })
}

/// Some items in an array, with spare ones after them; what is past its last place is left out.
pub fn padded<T: Copy, const N: usize>(items: &[T], spare: T) -> [T; N]
    ensures { (i : ℕ) → i < N → slice_index_or result i spare ≡ slice_index_or items.now i spare }
{
    let kept = items.len().min(N);
    let mut array = [spare; N];
    array[..kept].copy_from_slice(&items[..kept]);
    array
}
