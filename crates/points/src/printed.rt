//! What the program prints.
use run::replay::{Call, Outcome, Point, Reply};

// Prints a position and its numerators.
fn print_point(rt: &HostRuntime, position: u64, point: &Point) -> anyhow::Result<()> {
    print!(rt; "{position}")?;
    for numerator in point.numerators() {
        print!(rt; " {numerator}")?;
    }
    println!(rt)?;
    Ok(())
}

// Prints a call's reply.
fn print_reply(rt: &HostRuntime, call: Call, reply: Reply) -> anyhow::Result<()> {
    match (call, reply) {
        (
            _,
            Ok(
                Outcome::Stepped {
                    position,
                    point,
                    ..
                },
            ),
        ) => print_point(rt, position, &point)?,
        (Call::Verdict { m }, Ok(Outcome::Least { t })) => println!(rt; "t {m} {t}")?,
        (_, Ok(_)) => {}
        (_, Err(fault)) => println!(rt; "{fault}")?,
    }
    Ok(())
}

/// Prints the calls' replies, one on a line.
pub fn print_log(rt: &HostRuntime, calls: &[Call], log: &[Reply]) -> anyhow::Result<()> {
    for (call, reply) in calls.iter().zip(log) {
        print_reply(rt, *call, *reply)?;
    }
    Ok(())
}
