//! One word through each scrambler.
use fields::prime::PrimeField;
use scramblers::chain::ChainScrambler;
use scramblers::keyed::KeyedScrambler;
use scramblers::linear::LinearScrambler;
use scramblers::none::NoScrambler;
use scramblers::scrambler::Scrambler;
use scramblers::shift::ShiftScrambler;

// Prints what becomes of the word 2 0 1 in the only coordinate.
fn print_word<S: Scrambler>(rt: &HostRuntime, name: &str, scrambler: &S) -> anyhow::Result<()> {
    let mut word = [2u8, 0, 1];
    scrambler.scramble(0, &mut word);
    let [a, b, c] = word;
    println!(rt; "{name}: 2 0 1 becomes {a} {b} {c}")?;
    Ok(())
}

/// Prints one word of base 3 through each scrambler.
pub fn print_scramblers(rt: &HostRuntime) -> anyhow::Result<()> {
    print_word(rt, "none", &NoScrambler::new(3, 3, 1)?)?;
    print_word(
        rt,
        "shift by 1 1 2",
        &ShiftScrambler::new(3, 3, 1, &[1, 1, 2])?,
    )?;
    let field = PrimeField::new(3)?;
    let linear = LinearScrambler::new(field, 3, 1, &[1, 0, 0, 2, 1, 0, 0, 1, 2])?;
    print_word(rt, "linear 1 0 0, 2 1 0, 0 1 2", &linear)?;
    print_word(rt, "keyed by 7", &KeyedScrambler::new(3, 3, 1, 7)?)?;
    let shift = ShiftScrambler::new(3, 3, 1, &[1, 1, 2])?;
    print_word(
        rt,
        "linear, then shift",
        &ChainScrambler::new(linear, shift)?,
    )
}
