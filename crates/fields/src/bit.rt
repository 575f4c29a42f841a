//! The field of two elements.
ghost use Rattle.fields.specs.Bit.{bit_field};
ghost use Rattle.std.specs.Prelude.{if◌then◌else◌, Some, None, bit_and, bit_xor, nat_eq, refl};
ghost use Rattle.std.proofs.Common.{arith};
ghost use Rattle.fields.specs.OnDigits.{laws_from_digits};
ghost use Rattle.fields.specs.Tested.{laws_from_test};

use crate::binary::{same_digit, xor_digits};
use crate::field::Field;

/// The field of two elements: sum is exclusive-or, product is and.
#[derive(Clone, Copy, Debug, PartialEq, Eq)]
pub struct BitField;

impl Field for BitField {
    ghost means = { λ _. bit_field };

    ghost keeps = { λ x.
        laws_from_digits 2 bit_xor bit_and (λ a. a) (λ a. (if nat_eq a 1 then Some 1 else None)) (omega arith, omega arith)
        (laws_from_test 2 bit_xor bit_and (λ a. a) (λ a. (if nat_eq a 1 then Some 1 else None)) refl refl) };

    fn q(&self) -> u8 {
        2
    }

    fn add(&self, a: u8, b: u8) -> u8 {
        xor_digits::<2>(a, b)
    }

    fn mul(&self, a: u8, b: u8) -> u8 {
        if a < 2 && b < 2 { a & b } else { 0 }
    }

    fn neg(&self, a: u8) -> u8 {
        same_digit::<2>(a)
    }

    fn inverse(&self, a: u8) -> Option<u8> {
        if a == 1 { Some(1) } else { None }
    }
}
