//! Travel scaling: from the numerators of a point to counts between the limit switches.
ghost use Rattle.std.specs.Prelude.{◌≡◌, ◌^◌, ◌<◌, ◌↔◌, IsTrue, OnErr, length};
ghost use Rattle.base.specs.Digits.{AllDigits};
ghost use Rattle.base.specs.Tests.{Gives};
ghost use Rattle.checks.specs.Settings.{AllTravel, Grows, Scaled, Scales, TravelFits, travel_tests};

use crate::numerators::check_numerators;
use base::faults::{Fault, Kind, Layer};
use base::limits::Shape;

/// The travel of one coordinate: its lowest count, and how many counts it has.
#[derive(Clone, Copy, Debug, PartialEq, Eq)]
pub struct Travel {
    pub low: u32,
    pub span: u32,
}

impl Travel {
    // Whether the travel has a count, and none above 65,535.
    fn fits(self) -> bool
        ensures { IsTrue result ↔ TravelFits self }
    {
        self.span >= 1 && self.low <= 65536 && self.span <= 65536 - self.low
    }

    // The setting of a numerator below q^digits.
    fn setting(self, positions: u64, numerator: u32) -> u16
        requires below { numerator < positions }
        requires fits { TravelFits self }
        ensures { Scales positions self numerator result }
    {
        let steps = u64::from(numerator) * u64::from(self.span) / positions;
        (u64::from(self.low) + steps) as u16
    }
}

// Whether each travel fits.
fn all_travel_fits(travel: &[Travel]) -> bool
    ensures { IsTrue result ↔ AllTravel travel.now }
{
    travel.iter().all(|t| t.fits())
}

// Writes the setting of each numerator.
fn write_settings(positions: u64, numerators: &[u32], travel: &[Travel], out: &mut [u16])
    requires each_travel { length travel.now ≡ length numerators.now }
    requires each_setting { length out.old ≡ length numerators.now }
    requires small { AllDigits positions numerators.now }
    requires fit { AllTravel travel.now }
    ensures { Scaled positions (length numerators.now) numerators.now travel.now out.new }
{
    // By index beside `iter_mut`; tried: what a `zip` over it leaves in the slice is not known to a proof.
    for (j, setting) in out.iter_mut().enumerate() {
        *setting = travel[j].setting(positions, numerators[j]);
    }
}

/// Writes the setting of each coordinate: low + floor(X x span / q^digits). Refused, the settings stay as they stood.
#[tactic(auto, using(crate::proofs::Scaling::settings_grow))]
pub fn settings(
    q: u8,
    digits: u8,
    coordinates: u8,
    numerators: &[u32],
    travel: &[Travel],
    out: &mut [u16],
) -> Result<(), Fault>
    ensures answer { Gives (travel_tests q digits coordinates numerators.now travel.now (length out.old)) result (λ _. Scaled (q ^ digits) coordinates numerators.now travel.now out.new) }
    ensures refused { OnErr result (out.new ≡ out.old) }
    ensures grows { Grows }
{
    let shape = Shape::new(q, digits, coordinates, Layer::Travel)?;
    let n = coordinates as usize;
    if numerators.len() != n || travel.len() != n || out.len() != n {
        return Err(Fault::of(Kind::WrongLength, Layer::Travel));
    }
    check_numerators(numerators, shape.positions, Layer::Travel)?;
    if !all_travel_fits(travel) {
        return Err(Fault::of(Kind::OutOfReach, Layer::Travel));
    }
    write_settings(shape.positions, numerators, travel, out);
    Ok(())
}
