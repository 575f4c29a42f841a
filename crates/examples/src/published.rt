//! A direction list in words: its polynomials, direction numbers and tables.
use tables::directions::direction_numbers;
use tables::reader::Reader;
use tables::record::Record;
use tables::sobol::sobol_table;
use tables::table::Table;

// The digits of the tables that are printed.
const DIGITS: u8 = 16;

// The rows of a table that are printed.
const ROWS: u8 = 8;

/// Prints each coordinate of a list, or the refusal of the list.
pub fn print_list(rt: &HostRuntime, list: &[u8]) -> anyhow::Result<()> {
    match sobol_table(list, DIGITS) {
        Ok(table) => print_records(rt, list, &table),
        Err(fault) => {
            println!(rt; "{fault}")?;
            Ok(())
        }
    }
}

// Prints each record of a list with the table's rows.
fn print_records(rt: &HostRuntime, list: &[u8], table: &Table) -> anyhow::Result<()> {
    let mut reader = Reader::new(list)?;
    while let Some(record) = reader.next()? {
        print_record(rt, &record)?;
        print_rows(rt, table, record.coordinate)?;
    }
    Ok(())
}

// Prints a record's place, degree and polynomial, and its first direction numbers.
fn print_record(rt: &HostRuntime, record: &Record) -> anyhow::Result<()> {
    let coordinate = record.coordinate;
    let place = record.place;
    if let Some(parts) = record.parts() {
        let degree = parts.degree;
        let polynomial = parts.polynomial;
        println!(rt;
            "coordinate {coordinate} at byte {place}: degree {degree}, polynomial {polynomial}"
        )?;
    }
    print!(rt; "  m")?;
    let numbers = direction_numbers(record)?;
    for m in numbers.iter().take(DIGITS as usize) {
        print!(rt; " {m}")?;
    }
    println!(rt; "")?;
    Ok(())
}

// Prints the first rows of a coordinate's digits.
fn print_rows(rt: &HostRuntime, table: &Table, coordinate: u8) -> anyhow::Result<()> {
    for row in 1..=ROWS {
        print!(rt; "  row {row}")?;
        for column in 0..table.digits() {
            if let Some(digit) = table.entry(coordinate, row, column) {
                print!(rt; " {digit}")?;
            }
        }
        println!(rt; "")?;
    }
    Ok(())
}
