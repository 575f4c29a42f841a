//! Reads a direction list from standard input, at most 65,520 bytes, and runs it with M = 16, in plain order and with no scrambling:
//! prints the first eight positions with their numerators, and the verdict on m = 0 to 3; or the one line of a refusal.
#![tactic(auto)]

mod plan;
mod printed;

use fields::bit::BitField;
use orders::plain::PlainOrder;
use plan::{coordinates_of, nothing_yet, planned};
use run::run::Run;
use scramblers::none::NoScrambler;
use std::io::Read;

const MOST_BYTES: u64 = 65520;

const DIGITS: u8 = 16;

fn main(rt: HostRuntime) -> anyhow::Result<()> {
    let mut list = Vec::new(rt.alloc());
    rt.stdin().take(MOST_BYTES).read_to_end(&mut list)?;
    let coordinates = coordinates_of(list.len());
    let order = PlainOrder::new(2, DIGITS)?;
    let scrambler = NoScrambler::new(2, DIGITS, coordinates)?;
    let mut run = Run::new(BitField, order, scrambler);
    let calls = planned(coordinates);
    let mut log = nothing_yet();
    match run.replay_list(list.as_slice(), DIGITS, &calls, &mut log) {
        Ok(()) => printed::print_log(&rt, &calls, &log),
        Err(fault) => {
            println!(rt; "{fault}")?;
            Ok(())
        }
    }
}
