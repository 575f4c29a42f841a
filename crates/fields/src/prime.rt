//! The fields of a prime number of elements, modulo that prime.
ghost use Rattle.std.specs.Prelude.{◌≡◌, ◌+◌, ◌-◌, ◌*◌, ◌%◌, true};
ghost use Rattle.base.specs.Tables.{BaseLimits};
ghost use Rattle.base.specs.Tests.{Gives};
ghost use Rattle.fields.specs.Prime.{is_prime_size, prime_field, prime_tests, inverse_modulo};
ghost use Rattle.fields.specs.Modular.{modular_laws};
ghost use Rattle.fields.specs.OnDigits.{laws_from_digits};

use crate::field::Field;
use base::faults::{Fault, Kind, Layer};

/// The numbers modulo q, for q one of 2, 3, 5, 7, 11 and 13.
#[derive(Clone, Copy, Debug, PartialEq, Eq)]
pub struct PrimeField {
    q: u8,
    ghost prime: { is_prime_size q ≡ true },
    ghost base: { BaseLimits q },
}

impl PrimeField {
    /// The field of q elements; refused where q is none of the six primes.
    pub fn new(q: u8) -> Result<PrimeField, Fault>
        ensures { Gives (prime_tests q) result (λ x. x.q ≡ q) }
    {
        match q {
            2 | 3 | 5 | 7 | 11 | 13 => Ok(PrimeField { q }),
            _ => Err(Fault::of(Kind::NotPrime, Layer::Making)),
        }
    }
}

impl Field for PrimeField {
    ghost means = { λ x. prime_field x.q };

    ghost keeps = { λ x.
        laws_from_digits x.q (λ a b. (a + b) % x.q) (λ a b. a * b % x.q) (λ a. (x.q - a) % x.q) (inverse_modulo x.q) x.base
        (modular_laws x.q x.base.0 x.prime) };

    fn q(&self) -> u8 {
        self.q
    }

    fn add(&self, a: u8, b: u8) -> u8 {
        if a < self.q && b < self.q {
            (a + b) % self.q
        } else {
            0
        }
    }

    fn mul(&self, a: u8, b: u8) -> u8 {
        if a < self.q && b < self.q {
            (u16::from(a) * u16::from(b) % u16::from(self.q)) as u8
        } else {
            0
        }
    }

    fn neg(&self, a: u8) -> u8 {
        if a < self.q { (self.q - a) % self.q } else { 0 }
    }

    fn inverse(&self, a: u8) -> Option<u8> {
        if a >= self.q {
            return None;
        }
        (1..self.q).find(|b| u16::from(a) * u16::from(*b) % u16::from(self.q) == 1)
    }
}
