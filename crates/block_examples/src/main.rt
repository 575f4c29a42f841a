//! The test program of blocks and runs: prints the least t of blocks of points, and a run on a direction list.
#![tactic(auto)]

mod blocks;
mod points;
mod runs;

use std::io::Read;

// Reads a direction list of eight coordinates from standard input, and prints blocks of points and a run on that list.
fn main(rt: HostRuntime) -> anyhow::Result<()> {
    let mut list = Vec::new(rt.alloc());
    rt.stdin().read_to_end(&mut list)?;
    blocks::print_nets(&rt)?;
    runs::print_runs(&rt, list.as_slice())
}
