//! The test program: prints a direction list with its table, the parts of the engine at work, and what is refused.
#![tactic(auto)]

mod arithmetic;
#[cfg(test)]
mod check_tests;
mod counted;
mod damaged;
mod indexes;
mod lists;
#[cfg(test)]
mod making_tests;
mod published;
mod scaling;
mod stated;
#[cfg(test)]
mod tests;
#[cfg(test)]
mod travel_tests;
mod words;

use std::io::Read;

// Reads a direction list from standard input, prints it and its table, the refusals of damaged lists, and examples of
// orders, fields, scramblers, settings and the counting check.
fn main(rt: HostRuntime) -> anyhow::Result<()> {
    let mut list = Vec::new(rt.alloc());
    rt.stdin().read_to_end(&mut list)?;
    published::print_list(&rt, list.as_slice())?;
    damaged::print_refusals(&rt)?;
    indexes::print_orders(&rt)?;
    arithmetic::print_field_of_four(&rt)?;
    words::print_scramblers(&rt)?;
    scaling::print_settings(&rt)?;
    counted::print_checks(&rt)?;
    let count = stated::worked_examples();
    println!(rt; "worked examples proved of the definitions: {count}")?;
    Ok(())
}
