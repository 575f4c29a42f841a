//! The shifted order: a key digit is added to each digit of the position.
ghost use Rattle.std.specs.Prelude.{ℕ, ◌<◌, slice_index};

use crate::digitwise::index_by;
use crate::order::Order;
use crate::size::Size;
use base::digits::{check_digits, padded};
use base::faults::{Fault, Kind, Layer};

/// The order whose digit at q^l is (d_l + key_l) mod q, arithmetic on numbers.
#[derive(Clone, Copy, Debug, PartialEq, Eq)]
pub struct ShiftedOrder {
    size: Size,
    // Key digit l stands at l; the rest is 0. An array, since nothing here may ask for heap memory.
    key: [u8; 32],
    ghost digits: { (l : ℕ) → slice_index key l < size.q },
}

impl ShiftedOrder {
    ghost use Rattle.base.specs.Tests.{Gives};
    ghost use Rattle.orders.specs.Keys.{KeptKey};
    ghost use Rattle.orders.specs.Shifted.{key_tests};

    /// The order shifted by a key of one digit for each place.
    pub fn new(q: u8, digits: u8, key: &[u8]) -> Result<ShiftedOrder, Fault>
        ensures { Gives (key_tests q digits key.now) result (KeptKey q digits key.now) }
    {
        let size = Size::new(q, digits)?;
        if key.len() != usize::from(digits) {
            return Err(Fault::of(Kind::WrongLength, Layer::Making));
        }
        check_digits(key, q, Layer::Making)?;
        Ok(ShiftedOrder {
            size,
            key: padded(key, 0),
        })
    }
}

impl Order for ShiftedOrder {
    ghost use Rattle.std.specs.Prelude.{◌+◌};
    ghost use Rattle.std.proofs.Common.{mod-lt, arith};
    ghost use Rattle.base.proofs.Shifts.{same_if_shifts_same};
    ghost use Rattle.orders.specs.Prefixes.{digitwise_keeps_laws};
    ghost use Rattle.orders.specs.Shifted.{shift_step, shifted_order};

    ghost means = { λ x. shifted_order x.size.q x.size.digits x.key };

    ghost keeps = { λ x.
        let q = x.size.q in
        digitwise_keeps_laws q x.size.digits (shift_step q x.key) x.size.base x.size.width
        (λ l h d low digit. mod-lt (d + slice_index x.key l) (omega arith))
        (λ l h d e low hd he same. same_if_shifts_same q (slice_index x.key l) d e hd he same) };

    fn q(&self) -> u8 {
        self.size.q
    }

    fn digits(&self) -> u8 {
        self.size.digits
    }

    fn index(&self, position: u64) -> u64 {
        index_by(
            &self.size,
            |place, _above, digit| (digit + self.key[place]) % self.size.q,
            position,
        )
    }
}
