//! The field of four elements.
ghost use Rattle.fields.specs.Four.{four_field, four_inverse, products};
ghost use Rattle.std.specs.Prelude.{◌+◌, ◌*◌, bit_xor, slice_index, refl};
ghost use Rattle.std.proofs.Common.{arith};
ghost use Rattle.fields.specs.OnDigits.{laws_from_digits};
ghost use Rattle.fields.specs.Tested.{laws_from_test};

use crate::binary::{same_digit, xor_digits};
use crate::field::Field;

// The product of a and b stands at 4 a + b.
const PRODUCTS: [u8; 16] = [0, 0, 0, 0, 0, 1, 2, 3, 0, 2, 3, 1, 0, 3, 1, 2];

/// The field of four elements: sum is exclusive-or, 2 times 2 is 3, 2 times 3 is 1, and 3 times 3 is 2.
#[derive(Clone, Copy, Debug, PartialEq, Eq)]
pub struct FourField;

impl Field for FourField {
    ghost means = { λ _. four_field };

    ghost keeps = { λ x.
        laws_from_digits 4 bit_xor (λ a b. slice_index products (4 * a + b)) (λ a. a) four_inverse (omega arith, omega arith)
        (laws_from_test 4 bit_xor (λ a b. slice_index products (4 * a + b)) (λ a. a) four_inverse refl refl) };

    fn q(&self) -> u8 {
        4
    }

    fn add(&self, a: u8, b: u8) -> u8 {
        xor_digits::<4>(a, b)
    }

    fn mul(&self, a: u8, b: u8) -> u8 {
        if a < 4 && b < 4 {
            PRODUCTS[4 * usize::from(a) + usize::from(b)]
        } else {
            0
        }
    }

    fn neg(&self, a: u8) -> u8 {
        same_digit::<4>(a)
    }

    fn inverse(&self, a: u8) -> Option<u8> {
        match a {
            1 => Some(1),
            2 => Some(3),
            3 => Some(2),
            _ => None,
        }
    }
}
