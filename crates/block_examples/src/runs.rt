//! A run at work: published points, blocks of them by counting beside the verdict, and the ends of the positions.
ghost use Rattle.std.specs.Prelude.{◌≤◌};

use checks::check::least_t;
use fields::bit::BitField;
use orders::gray::GrayOrder;
use run::run::Run;
use scramblers::none::NoScrambler;

const DIGITS: u8 = 16;

const COORDINATES: u8 = 8;

const POSITIONS: u64 = 1 << DIGITS;

// The numerators of sixteen points.
const NUMERATORS: usize = 16 * COORDINATES as usize;

// A run of eight coordinates over 2^16, in Gray order and not scrambled.
type PublishedRun = Run<BitField, GrayOrder, NoScrambler>;

// Prints a position and the numerators of its point. The program `points` has its own: no crate of printing for one loop.
fn print_point(rt: &HostRuntime, position: u64, point: &[u32]) -> anyhow::Result<()> {
    print!(rt; "published {position}:")?;
    for numerator in point {
        print!(rt; " {numerator}")?;
    }
    println!(rt; "")?;
    Ok(())
}

// Prints the points of the next sixteen positions, and keeps them.
fn print_points(
    rt: &HostRuntime,
    run: &mut PublishedRun,
    points: &mut [u32; NUMERATORS],
) -> anyhow::Result<()> {
    for point in points.chunks_exact_mut(COORDINATES as usize) {
        let (position, _) = run.step(point)?;
        print_point(rt, position, point)?;
    }
    Ok(())
}

// Prints the least t of each block of 2^m points by counting, beside the verdict.
fn print_blocks(
    rt: &HostRuntime,
    run: &PublishedRun,
    points: &[u32; NUMERATORS],
    m: u8,
) -> anyhow::Result<()>
    requires { m ≤ 4 }
{
    let verdict = run.verdict(m)?;
    print!(rt; "verdict {m}: {verdict}; counted")?;
    let mut counters = [0u32; 16];
    for block in points.chunks((COORDINATES as usize) << m) {
        let t = least_t(2, DIGITS, COORDINATES, m, block, &mut counters)?;
        print!(rt; " {t}")?;
    }
    println!(rt; "")?;
    Ok(())
}

// Prints what a jump to a position answers.
fn print_jump(rt: &HostRuntime, run: &mut PublishedRun, position: u64) -> anyhow::Result<()> {
    match run.jump(position) {
        Ok(()) => println!(rt; "jump to {position}: accepted")?,
        Err(fault) => println!(rt; "jump to {position}: {fault}")?,
    }
    Ok(())
}

// Prints what a step answers.
fn print_step(rt: &HostRuntime, run: &mut PublishedRun) -> anyhow::Result<()> {
    let mut out = [0u32; COORDINATES as usize];
    match run.step(&mut out) {
        Ok((position, changed)) => println!(rt; "step: position {position}, {changed} changed")?,
        Err(fault) => println!(rt; "step: {fault}")?,
    }
    Ok(())
}

// Prints what jumps to the last position and past it answer, and the last steps.
fn print_ends(rt: &HostRuntime, run: &mut PublishedRun) -> anyhow::Result<()> {
    print_jump(rt, run, POSITIONS - 1)?;
    print_jump(rt, run, POSITIONS)?;
    print_step(rt, run)?;
    print_step(rt, run)
}

/// Prints the first points of a list of eight coordinates in Gray order, their blocks, and the ends of the positions.
pub fn print_runs(rt: &HostRuntime, list: &[u8]) -> anyhow::Result<()> {
    let order = GrayOrder::new(2, DIGITS)?;
    let scrambler = NoScrambler::new(2, DIGITS, COORDINATES)?;
    let mut run = Run::new(BitField, order, scrambler);
    run.start(list, DIGITS)?;
    let mut points = [0u32; NUMERATORS];
    print_points(rt, &mut run, &mut points)?;
    for m in 0..=4 {
        print_blocks(rt, &run, &points, m)?;
    }
    print_ends(rt, &mut run)
}
