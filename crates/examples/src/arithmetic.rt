//! The tables of the field of four.
ghost use Rattle.std.specs.Prelude.{ℕ, ◌<◌};

use fields::field::Field;
use fields::four::FourField;

// Prints what a rule makes of each digit below q.
fn print_each<R: Fn(u8) -> u8>(rt: &HostRuntime, q: u8, rule: R) -> anyhow::Result<()>
    requires { (b : ℕ) → b < q → R.pre rule b }
{
    for b in 0..q {
        let digit = rule(b);
        print!(rt; " {digit}")?;
    }
    Ok(())
}

// Prints the sums and the products of a digit with every digit.
fn print_row<F: Field>(rt: &HostRuntime, field: &F, a: u8) -> anyhow::Result<()> {
    print!(rt; "  {a} +")?;
    print_each(rt, field.q(), |b| field.add(a, b))?;
    print!(rt; "   {a} x")?;
    print_each(rt, field.q(), |b| field.mul(a, b))?;
    println!(rt; "")?;
    Ok(())
}

/// Prints the sums and products of the field of four.
pub fn print_field_of_four(rt: &HostRuntime) -> anyhow::Result<()> {
    println!(rt; "field of four")?;
    for a in 0..4u8 {
        print_row(rt, &FourField, a)?;
    }
    Ok(())
}
