//! The direction numbers of a record, by Sobol's recurrence.
ghost use Rattle.std.specs.Prelude.{◌≡◌, ℕ, ◌-◌, ◌*◌, ◌%◌, ◌^◌, ◌<◌, ◌≤◌, ◌↔◌, length, IsTrue, slice_index};
ghost use Rattle.base.specs.Tests.{Gives};
ghost use Rattle.tables.specs.Directions.{Numbers, direction, record_tests, recurrence};
ghost use Rattle.tables.specs.Given.{OddAndSmall};

use crate::polynomial::Polynomial;
use crate::record::{Given, Record};
use base::faults::{Fault, Kind, Layer};

// The number m_i by the recurrence, from those before it; m_1 stands first.
fn next_number(numbers: &[u32; 32], i: usize, polynomial: Polynomial) -> u32
    requires later { (1 ≤ polynomial.degree) × ((polynomial.degree < i) × (i ≤ 32)) }
    requires small { (k : ℕ) → 1 ≤ k → k < i → slice_index numbers.now (k - 1) < 2 ^ k }
    ensures value { result ≡ recurrence polynomial.degree polynomial.bits (λ k. slice_index numbers.now (i - k - 1)) }
    ensures bound { result < 2 ^ i }
{
    let degree = polynomial.degree as usize;
    let mut sum = 0;
    // k is the recurrence's own index, of a coefficient and of m_(i-k): a zip with the numbers from behind hides both.
    for k in 1..degree {
        if (polynomial.bits >> (degree - k)) & 1 == 1 {
            sum ^= numbers[i - k - 1] << k;
        }
    }
    let oldest = numbers[i - degree - 1];
    sum ^ ((oldest << degree) ^ oldest)
}

// Whether each number is odd, the first below 2, and each bound twice the one before.
fn are_odd_and_small(numbers: &[u16]) -> bool
    requires { length numbers.now ≤ 8 }
    ensures { IsTrue result ↔ ((k : ℕ) → k < length numbers.now → (slice_index numbers.now k % 2 ≡ 1) × (slice_index numbers.now k < 2 * 2 ^ k)) }
{
    numbers
        .iter()
        .enumerate()
        .all(|(k, m)| *m % 2 == 1 && *m < 2 << k)
}

impl Given {
    // Whether each given number m_i is odd and below 2^i.
    fn is_admissible(&self) -> bool
        ensures { IsTrue result ↔ OddAndSmall self.now }
    {
        are_odd_and_small(&self.numbers[..self.polynomial.degree as usize])
    }

    // The direction numbers m_1 to m_32, from the given ones on.
    fn extend(&self) -> [u32; 32]
        requires { OddAndSmall self.now }
        ensures { (i : ℕ) → 1 ≤ i → i ≤ 32 → slice_index result (i - 1) ≡ direction self.now.polynomial.degree self.now.polynomial.bits (λ k. slice_index self.now.numbers (k - 1)) i }
    {
        let degree = self.polynomial.degree as usize;
        let mut numbers = [1u32; 32];
        if degree == 0 {
            return numbers;
        }
        // Each number is read off those before it, so no iterator can hold the array while one is written.
        for i in 1..33 {
            numbers[i - 1] = if i <= degree {
                u32::from(self.numbers[i - 1])
            } else {
                next_number(&numbers, i, self.polynomial)
            };
        }
        numbers
    }
}

/// The direction numbers m_1 to m_32 of a record, m_1 first.
pub fn direction_numbers(record: &Record) -> Result<[u32; 32], Fault>
    ensures { Gives (record_tests «record».now.bytes.now «record».now.coordinate «record».now.place) result (Numbers «record».now.bytes.now) }
{
    let Some(given) = record.given() else {
        return Err(record.fault(Kind::BadLayout, Layer::Reader));
    };
    if given.polynomial.degree > 0 && !given.polynomial.is_primitive() {
        return Err(record.fault(Kind::NotPrimitive, Layer::Tables));
    }
    if !given.is_admissible() {
        return Err(record.fault(Kind::BadDirection, Layer::Tables));
    }
    Ok(given.extend())
}
