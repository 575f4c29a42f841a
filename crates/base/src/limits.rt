//! The limits of q, of the number of digits and of the number of coordinates.
ghost use Rattle.std.specs.Prelude.{◌≡◌, ◌^◌, ◌≤◌, ◌↔◌, IsTrue};
ghost use Rattle.std.specs.Option.{SomeIff};
ghost use Rattle.base.specs.Tables.{BaseLimits, CoordinateLimits, DigitLimits, Limits};

use crate::faults::{Fault, Kind, Layer};

/// The number of positions of words of some digits, q^digits; none where q or the number of digits is out of range.
pub fn positions(q: u8, digits: u8) -> Option<u64>
    ensures { SomeIff result (BaseLimits q × DigitLimits q digits) (q ^ digits) }
{
    if !(2..=16).contains(&q) || digits < 1 {
        return None;
    }
    let n = u64::from(q).checked_pow(u32::from(digits))?;
    if n <= 1 << 32 { Some(n) } else { None }
}

/// Whether q, the number of digits and the number of coordinates are in range.
pub fn keep_limits(q: u8, digits: u8, coordinates: u8) -> bool
    ensures { IsTrue result ↔ Limits q digits coordinates }
{
    (1..=8).contains(&coordinates) && positions(q, digits).is_some()
}

/// q and the numbers of digits and of coordinates, within their limits, and the number of positions, q^digits.
// Public calls take the three as numbers and make the shape themselves: to take one would ask more of their callers.
#[derive(Clone, Copy, PartialEq, Eq, Debug)]
pub struct Shape {
    pub q: u8,
    pub digits: u8,
    pub coordinates: u8,
    // Kept so that no step works it out again.
    pub positions: u64,
    pub ghost base: { BaseLimits q },
    pub ghost width: { DigitLimits q digits },
    pub ghost narrow: { digits ≤ 32 },
    pub ghost dimension: { CoordinateLimits coordinates },
    pub ghost count: { positions ≡ q ^ digits },
}

impl Shape {
    ghost use Rattle.base.specs.Faults.{layer_number};
    ghost use Rattle.base.specs.Shapes.{HasShape, limit_tests};
    ghost use Rattle.base.specs.Tests.{Gives};

    /// The shape of some numbers; a layer refuses them where one is out of range.
    pub fn new(q: u8, digits: u8, coordinates: u8, layer: Layer) -> Result<Shape, Fault>
        ensures { Gives (limit_tests (layer_number layer) q digits coordinates) result (HasShape q digits coordinates) }
    {
        match positions(q, digits) {
            Some(positions) if (1..=8).contains(&coordinates) => Ok(Shape {
                q,
                digits,
                coordinates,
                positions,
            }),
            _ => Err(Fault::of(Kind::OutOfRange, layer)),
        }
    }
}
