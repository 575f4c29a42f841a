//! The numbers that every order has.
ghost use Rattle.std.specs.Prelude.{◌≡◌, ◌^◌, ◌≤◌};
ghost use Rattle.base.specs.Tables.{BaseLimits, DigitLimits};

use base::faults::{Fault, Kind, Layer};
use base::limits::positions;

/// q and the number of digits, within their limits, and q^digits.
// Not a part of base's `Shape`: that would say `shape.size.q` in every clause that says `shape.q`.
#[derive(Clone, Copy, Debug, PartialEq, Eq)]
pub struct Size {
    pub(crate) q: u8,
    pub(crate) digits: u8,
    pub(crate) positions: u64,
    ghost base: { BaseLimits q },
    ghost width: { DigitLimits q digits },
    ghost narrow: { digits ≤ 32 },
    ghost count: { positions ≡ q ^ digits },
}

impl Size {
    ghost use Rattle.base.specs.Tests.{Gives};
    ghost use Rattle.orders.specs.Sizes.{HasSize, size_tests};

    // The size of some numbers; refused where one is out of range.
    pub(crate) fn new(q: u8, digits: u8) -> Result<Size, Fault>
        ensures { Gives (size_tests q digits) result (HasSize q digits) }
    {
        let positions = positions(q, digits).ok_or(Fault::of(Kind::OutOfRange, Layer::Making))?;
        Ok(Size {
            q,
            digits,
            positions,
        })
    }
}
