// Builds the shapes of a wage run from their parts, and prints the account: each shape's number and figures.
#![tactic(auto)]

use answers::{Answer, Found};
use grammar::error::Refusal;
use grammar::figures::Figures;
use history::account::figures_of;
use sheet::row::{FieldRow, TypeRow};
use sheet::sheet::Sheet;
use std::{fmt, io};

// The numbers of basic types.
const UNIT: u16 = 0;

const U32: u16 = 6;

const I64: u16 = 7;

const F64: u16 = 9;

const STR: u16 = 10;

// A number and its figures.
#[derive(Drop)]
struct Entry {
    number: u16,
    figures: Figures,
}

impl fmt::Display for Entry {
    fn fmt<W: fmt::Write>(&self, f: &mut fmt::Formatter<W>) -> fmt::Result {
        let Entry { number, figures } = self;
        write!(f, "{number}, {figures}")
    }
}

// Writes the account's line for what a maker answered, and gives the number, or Unit's for a refusal.
fn show(
    rt: &HostRuntime,
    name: &str,
    sheet: &mut Sheet,
    answer: Result<u16, Refusal>,
) -> io::Result<u16> {
    let entry = answer.and_then(|number| figures_of(sheet, number).map(|figures| Entry {
        number,
        figures,
    }));
    println!(rt; "{name}: {}", Answer(entry))?;
    Ok(answer.unwrap_or(UNIT))
}

fn build(rt: &HostRuntime, sheet: &mut Sheet) -> io::Result<()> {
    let answer = sheet.structure(&[STR, I64, I64, U32]);
    let shift = show(rt, "shift", sheet, answer)?;
    let answer = sheet.array(shift);
    let shifts = show(rt, "shifts", sheet, answer)?;
    let answer = sheet.dict(STR, F64);
    let rates = show(rt, "rates by name", sheet, answer)?;
    let answer = sheet.maybe(F64);
    let tip = show(rt, "tip", sheet, answer)?;
    let answer = sheet.structure(&[STR, shifts, rates, tip]);
    let wage = show(rt, "wage", sheet, answer)?;
    let answer = sheet.structure(&[STR, I64, I64, U32]);
    show(rt, "shift again", sheet, answer)?;
    let answer = sheet.array(UNIT);
    show(rt, "array of Unit", sheet, answer)?;
    let answer = sheet.dict(STR, 99);
    show(rt, "an unknown value", sheet, answer)?;
    let answer = sheet.structure(&[]);
    show(rt, "no fields", sheet, answer)?;
    parts(rt, sheet, wage)
}

// The fields of a structure, by place.
fn parts(rt: &HostRuntime, sheet: &mut Sheet, wage: u16) -> io::Result<()> {
    let count = Answer(sheet.len(wage));
    println!(rt; "wage has {count} fields")?;
    for i in 0..5 {
        let field = sheet.get(wage, i).map(Found);
        println!(rt; "field {i}: {}", Answer(field))?;
    }
    let (types, fields) = sheet.counts();
    println!(rt; "rows in use: {types} of types, {fields} of fields")
}

fn main(rt: HostRuntime) -> io::Result<()> {
    let mut types = [TypeRow::BLANK; 64];
    let mut fields = [FieldRow::BLANK; 64];
    let mut sheet = Sheet::open(&mut types, &mut fields);
    build(&rt, &mut sheet)
}
