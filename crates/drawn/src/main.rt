// Files each line of standard input on a sheet, as `whole_lines` does, and reads each printed form again: it has to give the
// same number, or be too deep to be read. A form that does neither is named, and so are rows that it added.
#![tactic(auto)]

use grammar::error::{Cause, Refusal};
use intake::filed::Filed;
use intake::filing::LONGEST_FORM;
use intake::input::{LONGEST_INPUT, read_input};
use intake::replies::reply_to_lines;
use sheet::row::{FieldRow, TypeRow};
use sheet::sheet::Sheet;
use std::io;

const ROWS: usize = 1_024;

// Whether the form, read again, gives its number, or is too deep, and adds no row.
fn comes_back(sheet: &mut Sheet, filed: &Filed) -> bool {
    let counts = sheet.counts();
    let again = match sheet.from_bytes(filed.form) {
        Ok(number) => number == filed.number,
        Err(Refusal::Invalid(fault)) => fault.cause == Cause::TooDeep,
        Err(_) => false,
    };
    again && sheet.counts() == counts
}

fn main(rt: HostRuntime) -> io::Result<()> {
    let mut types = [TypeRow::BLANK; ROWS];
    let mut fields = [FieldRow::BLANK; ROWS];
    let mut sheet = Sheet::open(&mut types, &mut fields);
    let mut form = [0u8; LONGEST_FORM];
    let mut input = [0u8; LONGEST_INPUT];
    let count = read_input(&rt, &mut input)?;
    reply_to_lines(
        &rt,
        &mut sheet,
        &input[..count],
        &mut form,
        |sheet, filed| if comes_back(sheet, filed) {
            Ok(())
        } else {
            print!(rt; " does not come back")
        },
    )
}
