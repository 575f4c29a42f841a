//! Settings between limit switches.
use checks::travel::{Travel, settings};

// Prints the setting of one numerator over 8, from 10 on with 100 counts, or its refusal.
fn print_setting(rt: &HostRuntime, numerator: u32) -> anyhow::Result<()> {
    let mut out = [0u16];
    let travel = [Travel { low: 10, span: 100 }];
    match settings(2, 3, 1, &[numerator], &travel, &mut out) {
        Ok(()) => {
            let setting = out[0];
            println!(rt; "  {numerator} of 8: {setting}")?;
        }
        Err(fault) => println!(rt; "  {numerator} of 8: {fault}")?,
    }
    Ok(())
}

/// Prints the settings of the numerators 0 to 8 over 8.
pub fn print_settings(rt: &HostRuntime) -> anyhow::Result<()> {
    println!(rt; "settings, low 10, span 100")?;
    for numerator in 0..9u32 {
        print_setting(rt, numerator)?;
    }
    Ok(())
}
