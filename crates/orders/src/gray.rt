//! The Gray order: each digit of the index is a digit of the position less the one above it.
ghost use Rattle.std.specs.Prelude.{◌+◌, ◌-◌, ◌%◌};
ghost use Rattle.base.specs.Tests.{Gives};
ghost use Rattle.orders.specs.Gray.{gray_order, gray_step};
ghost use Rattle.orders.specs.Sizes.{HasSize, size_tests};
ghost use Rattle.std.proofs.Common.{mod-lt, arith};
ghost use Rattle.base.proofs.Shifts.{same_if_shifts_same};
ghost use Rattle.orders.specs.Prefixes.{digitwise_keeps_laws};

use crate::digitwise::index_by;
use crate::order::Order;
use crate::size::Size;
use base::faults::Fault;

/// The order whose digit at q^l is (d_l - d_(l+1)) mod q. This is arithmetic on numbers and not in a field:
/// for q = 4, d_l = 0 and d_(l+1) = 1 it is 3, where the field of four would give 1.
#[derive(Clone, Copy, Debug, PartialEq, Eq)]
pub struct GrayOrder {
    size: Size,
}

impl GrayOrder {
    /// The Gray order of words of some digits.
    pub fn new(q: u8, digits: u8) -> Result<GrayOrder, Fault>
        ensures { Gives (size_tests q digits) result (λ x. HasSize q digits x.size) }
    {
        let size = Size::new(q, digits)?;
        Ok(GrayOrder { size })
    }
}

impl Order for GrayOrder {
    ghost means = { λ x. gray_order x.size.q x.size.digits };

    ghost keeps = { λ x.
        let q = x.size.q in
        digitwise_keeps_laws q x.size.digits (gray_step q) x.size.base x.size.width
        (λ l h d low digit. mod-lt (d + (q - h % q)) (omega arith))
        (λ l h d e low hd he same. same_if_shifts_same q (q - h % q) d e hd he same) };

    fn q(&self) -> u8 {
        self.size.q
    }

    fn digits(&self) -> u8 {
        self.size.digits
    }

    fn index(&self, position: u64) -> u64 {
        let q = self.size.q;
        index_by(
            &self.size,
            |_place, above, digit| {
                let next = (above % u64::from(q)) as u8;
                (digit + (q - next)) % q
            },
            position,
        )
    }
}
