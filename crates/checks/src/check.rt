//! The counting check: the least t for which points form a net, found by counting them in cells.
ghost use Rattle.std.specs.Prelude.{◌≡◌, ◌^◌, OnErr, length};
ghost use Rattle.base.specs.Nets.{Least, Net};
ghost use Rattle.base.specs.Tests.{Gives};
ghost use Rattle.checks.specs.Counting.{Cleared, check_tests, points_of};

use crate::block::{Block, clear};
use base::faults::{Fault, Layer};
use base::limits::Shape;

/// The least t from 0 to m for which q^m points form a (t, m, s)-net. The points are `coordinates` numerators each, one after
/// the other. Accepted, the first q^m counters are 0 afterwards and the rest as they were; refused, every counter stays.
pub fn least_t(
    q: u8,
    digits: u8,
    coordinates: u8,
    m: u8,
    points: &[u32],
    counters: &mut [u32],
) -> Result<u8, Fault>
    ensures answer { Gives (check_tests q digits coordinates m points.now (length counters.old)) result (λ t. Least (λ u. Net q digits coordinates u m (points_of coordinates (q ^ m) points.now)) t × Cleared (q ^ m) counters.old counters.new) }
    ensures refused { OnErr result (counters.new ≡ counters.old) }
{
    let shape = Shape::new(q, digits, coordinates, Layer::Check)?;
    let block = Block::new(shape, m, points, counters.len())?;
    let used = &mut counters[..block.size];
    let t = block.least_t(used);
    clear(used);
    Ok(t)
}
