//! What damaged lists are refused with.
use crate::lists::{GOOD, THIRTY_ONE};
use tables::sobol::sobol_table;

// A byte of the good list put wrong: its place, its value, and what is wrong with the list.
#[derive(Clone, Copy)]
struct Damage(usize, u8, &'static str);

const DAMAGES: [Damage; 11] = [
    Damage(20, 9, "a degree of 9"),
    Damage(21, 1, "byte 1 is not 0"),
    Damage(20, 4, "the top coefficient is not at 2^degree"),
    Damage(22, 10, "the lowest coefficient is 0"),
    Damage(30, 1, "a number past m_3"),
    Damage(2, 3, "degree 0 with polynomial 3"),
    Damage(22, 15, "polynomial 15 is not primitive"),
    Damage(26, 2, "m_2 is even"),
    Damage(28, 6, "m_3 is even"),
    Damage(28, 9, "m_3 is above 7"),
    Damage(24, 3, "m_1 is above 1"),
];

// Prints what a list of some digits is refused with.
fn print_outcome(rt: &HostRuntime, what: &str, list: &[u8], digits: u8) -> anyhow::Result<()> {
    match sobol_table(list, digits) {
        Ok(_) => println!(rt; "{what}: accepted")?,
        Err(fault) => println!(rt; "{what}: {fault}")?,
    }
    Ok(())
}

// Prints the refusals of lists of other lengths and digits, and of a polynomial that is not primitive.
fn print_sizes(rt: &HostRuntime) -> anyhow::Result<()> {
    let nine = [0u8; 180];
    print_outcome(rt, "an empty list", &[], 16)?;
    print_outcome(rt, "19 bytes", &[0u8; 19], 16)?;
    print_outcome(rt, "nine records", &nine, 16)?;
    print_outcome(rt, "no digits", GOOD, 0)?;
    print_outcome(rt, "33 digits", GOOD, 33)?;
    print_outcome(
        rt,
        "polynomial 31 is irreducible and not primitive",
        THIRTY_ONE,
        16,
    )?;
    print_outcome(rt, "nothing wrong", GOOD, 32)
}

/// Prints what a dozen and more damaged lists are refused with.
pub fn print_refusals(rt: &HostRuntime) -> anyhow::Result<()> {
    print_sizes(rt)?;
    for Damage(place, value, what) in DAMAGES {
        let mut list = *GOOD;
        list[place] = value;
        print_outcome(rt, what, &list, 16)?;
    }
    Ok(())
}
