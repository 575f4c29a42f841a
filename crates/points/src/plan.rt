//! The calls that the program makes.
ghost use Rattle.std.specs.Prelude.{◌≡◌, ℕ, ◌/◌, ◌≤◌, ◌++◌, map, replicate};
ghost use Rattle.std.specs.List.{range_with_len};
ghost use Rattle.run.specs.declared.replay.Call.TheVariants.{Step, Verdict};
ghost use Rattle.run.specs.declared.replay.Outcome.TheVariants.{Jumped};

use run::replay::{Call, Outcome, Reply};

/// The number of coordinates of a list of so many bytes, kept within 1 to 8: a list of any other length is refused when it is read.
pub fn coordinates_of(bytes: usize) -> u8
    ensures limits { (1 ≤ result) × (result ≤ 8) }
    ensures records { 1 ≤ bytes / 20 → bytes / 20 ≤ 8 → result ≡ bytes / 20 }
{
    (bytes / 20).clamp(1, 8) as u8
}

/// Eight steps, and the verdict on m = 0 to 3.
pub fn planned(coordinates: u8) -> [Call; 12]
    ensures { result ≡ replicate 8 (Step coordinates) ++ map Verdict (range_with_len 0 4) }
{
    let mut calls = [Call::Step { room: coordinates }; 12];
    calls[8..].copy_from_slice(&[0, 1, 2, 3].map(|m| Call::Verdict { m }));
    calls
}

/// A log to be filled.
pub fn nothing_yet() -> [Reply; 12]
    ensures { result ≡ replicate 12 (Ok Jumped) }
{
    [Ok(Outcome::Jumped); 12]
}
