// Files each line of standard input on a sheet, and says its number, figures and printed form, or else why it is refused.
#![tactic(auto)]

use intake::filing::LONGEST_FORM;
use intake::input::{LONGEST_INPUT, read_input};
use intake::replies::reply_to_lines;
use sheet::row::{FieldRow, TypeRow};
use sheet::sheet::Sheet;
use std::io;

// How many rows of each kind the sheet has.
const ROWS: usize = 1_024;

fn main(rt: HostRuntime) -> io::Result<()> {
    let mut types = [TypeRow::BLANK; ROWS];
    let mut fields = [FieldRow::BLANK; ROWS];
    let mut sheet = Sheet::open(&mut types, &mut fields);
    let mut form = [0u8; LONGEST_FORM];
    let mut input = [0u8; LONGEST_INPUT];
    let count = read_input(&rt, &mut input)?;
    reply_to_lines(&rt, &mut sheet, &input[..count], &mut form, |_, _| Ok(()))
}
