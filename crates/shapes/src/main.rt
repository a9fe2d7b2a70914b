// Files each line of standard input on a sheet, and says its number, or else why and where it is no signature.
#![tactic(auto)]

use sheet::row::{FieldRow, TypeRow};
use sheet::sheet::Sheet;
use std::io;
use textlines::input::{LONGEST_INPUT, read_input};
use textlines::lines::Lines;

// How many rows of each kind the sheet has.
const ROWS: usize = 1_024;

fn file(rt: &HostRuntime, sheet: &mut Sheet, line: &[u8]) -> io::Result<()> {
    match sheet.from_bytes(line) {
        Ok(number) => println!(rt; "ok {number}"),
        Err(refusal) => println!(rt; "no {refusal}"),
    }
}

fn main(rt: HostRuntime) -> io::Result<()> {
    let mut types = [TypeRow::BLANK; ROWS];
    let mut fields = [FieldRow::BLANK; ROWS];
    let mut sheet = Sheet::open(&mut types, &mut fields);
    let mut input = [0u8; LONGEST_INPUT];
    let count = read_input(&rt, &mut input)?;
    for line in Lines::new(&input[..count]) {
        file(&rt, &mut sheet, line)?;
    }
    Ok(())
}
