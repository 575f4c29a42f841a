//! An index made digit by digit from a position, each digit from the position's digit and those above it.
ghost use Rattle.std.specs.Prelude.{◌≡◌, ℕ, ◌^◌, ◌<◌};
ghost use Rattle.orders.specs.Digitwise.{GivesSteps, by_digits};

use crate::size::Size;

// The index of a position by a rule, which is given the place l, the position's quotient by q^(l + 1), and the digit
// at q^l. A position of q^digits or more comes back as it came.
pub(crate) fn index_by<F: Fn(usize, u64, u8) -> u8>(size: &Size, rule: F, position: u64) -> u64
    requires can { (l h d : ℕ) → l < 32 → h < 2 ^ 64 → d < size.now.q → F.pre rule l h d }
    requires small { (l h d x : ℕ) → l < 32 → d < size.now.q → F.post rule l h d x → x < size.now.q }
    ensures { (step : ℕ → ℕ → ℕ → ℕ) → GivesSteps size.now.q (F.post rule) step
        → result ≡ by_digits size.now.q size.now.digits step position }
{
    if position >= size.positions {
        return position;
    }
    let q = u64::from(size.q);
    let mut rest = position;
    let mut weight = 1u64;
    let mut index = 0u64;
    for place in 0..usize::from(size.digits) {
        let digit = (rest % q) as u8;
        rest /= q;
        index += u64::from(rule(place, rest, digit)) * weight;
        weight *= q;
    }
    index
}
