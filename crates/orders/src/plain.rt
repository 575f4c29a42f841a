//! The plain order: each index is its position.
ghost use Rattle.base.specs.Tests.{Gives};
ghost use Rattle.orders.specs.Sizes.{HasSize, size_tests};
ghost use Rattle.orders.specs.Plain.{plain_order};
ghost use Rattle.std.proofs.Common.{rules};

use crate::order::Order;
use crate::size::Size;
use base::faults::Fault;

/// The order that keeps each digit.
#[derive(Clone, Copy, Debug, PartialEq, Eq)]
pub struct PlainOrder {
    size: Size,
}

impl PlainOrder {
    /// The plain order of words of some digits.
    pub fn new(q: u8, digits: u8) -> Result<PlainOrder, Fault>
        ensures { Gives (size_tests q digits) result (λ x. HasSize q digits x.size) }
    {
        let size = Size::new(q, digits)?;
        Ok(PlainOrder { size })
    }
}

impl Order for PlainOrder {
    ghost means = { λ x. plain_order x.size.q x.size.digits };

    ghost keeps = { Prim.search rules };

    fn q(&self) -> u8 {
        self.size.q
    }

    fn digits(&self) -> u8 {
        self.size.digits
    }

    fn index(&self, position: u64) -> u64 {
        position
    }
}
