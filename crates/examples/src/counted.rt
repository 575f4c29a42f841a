//! The counting check at work.
use checks::check::least_t;

// The first eight points of the first two published Sobol' coordinates, in Gray order, over 2^16.
const PUBLISHED: [u32; 16] = [
    0, 0, 32768, 32768, 49152, 16384, 16384, 49152, 24576, 24576, 57344, 57344, 40960, 8192, 8192,
    40960,
];

// Prints the least t of eight points of two coordinates over 2^16.
fn print_least(rt: &HostRuntime, what: &str, points: &[u32]) -> anyhow::Result<()> {
    let mut counters = [7u32; 8];
    match least_t(2, 16, 2, 3, points, &mut counters) {
        Ok(t) => println!(rt; "{what}: t {t}")?,
        Err(fault) => println!(rt; "{what}: {fault}")?,
    }
    Ok(())
}

/// Prints the check's answer on published points, on the same with one point replaced, and on too few.
pub fn print_checks(rt: &HostRuntime) -> anyhow::Result<()> {
    print_least(rt, "eight published points", &PUBLISHED)?;
    let mut replaced = PUBLISHED;
    replaced[15] = 8192;
    print_least(rt, "the last one replaced", &replaced)?;
    print_least(rt, "seven of them", &PUBLISHED[0..14])
}
