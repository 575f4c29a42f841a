//! The indexes of the three orders.
use orders::gray::GrayOrder;
use orders::order::Order;
use orders::plain::PlainOrder;
use orders::shifted::ShiftedOrder;

// Prints the first indexes of an order.
fn print_indexes<O: Order>(rt: &HostRuntime, name: &str, order: &O) -> anyhow::Result<()> {
    print!(rt; "{name}")?;
    for position in 0..27u64 {
        let index = order.index(position);
        print!(rt; " {index}")?;
    }
    println!(rt; "")?;
    Ok(())
}

// Prints whether words of base 3 may have so many digits: 3^20 is below 2^32, 3^21 is not.
fn print_width(rt: &HostRuntime, digits: u8) -> anyhow::Result<()> {
    match PlainOrder::new(3, digits) {
        Ok(_) => println!(rt; "q 3, M {digits}: accepted")?,
        Err(fault) => println!(rt; "q 3, M {digits}: {fault}")?,
    }
    Ok(())
}

/// Prints the indexes of the three orders for q = 3 and three digits, and how many digits q = 3 allows.
pub fn print_orders(rt: &HostRuntime) -> anyhow::Result<()> {
    print_indexes(rt, "plain", &PlainOrder::new(3, 3)?)?;
    print_indexes(rt, "gray", &GrayOrder::new(3, 3)?)?;
    print_indexes(
        rt,
        "shifted by 2 0 1",
        &ShiftedOrder::new(3, 3, &[2, 0, 1])?,
    )?;
    print_width(rt, 20)?;
    print_width(rt, 21)
}
