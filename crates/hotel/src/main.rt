// A hotel's day: the shapes that its clock boxes send are read and built on a fresh sheet, some are refused, and the
// account is printed.
#![tactic(auto)]

use answers::Answer;
use grammar::error::Refusal;
use history::account::Account;
use history::calls::Call;
use history::replay::replay;
use printing::printing::Printed;
use sheet::row::{FieldRow, TypeRow};
use std::{fmt, io};
use writers::writer::{BufferWriter, MatchingWriter};

// The numbers of basic types.
const UNIT: u16 = 0;

const F64: u16 = 9;

const STR: u16 = 10;

// The numbers that the day's shapes get, in their order.
const SHIFTS: u16 = 16;

const TIP: u16 = 17;

const TIPS: u16 = 18;

const RATES: u16 = 19;

const SOME_RATES: u16 = 20;

const WAGE: u16 = 21;

const NO_SUCH: u16 = 99;

const DAY: [Call<'static>; 14] = [
    Call::FromBytes(b"(stt)"),
    Call::FromBytes(b"a(stt)"),
    Call::FromBytes(b"sd"),
    Call::Array(TIP),
    Call::Dict(STR, F64),
    Call::Maybe(RATES),
    Call::Structure(&[STR, SHIFTS, TIPS, SOME_RATES]),
    Call::FromBytes(b"sa(stt)a(sd)ma{sd}"),
    Call::FromBytes(b"(stt)"),
    Call::FromBytes(b"a{s"),
    Call::FromBytes(b"(st)t)"),
    Call::Array(UNIT),
    Call::Dict(STR, NO_SUCH),
    Call::Structure(&[]),
];

// A call as the account names it.
#[derive(Drop)]
struct Asked<'a>(&'a Call<'a>);

impl<'a> fmt::Display for Asked<'a> {
    fn fmt<W: fmt::Write>(&self, f: &mut fmt::Formatter<W>) -> fmt::Result {
        match self.0 {
            Call::FromBytes(text) => write!(f, "read {}", text.escape_ascii()),
            Call::Array(child) => write!(f, "array of {child}"),
            Call::Dict(key, value) => write!(f, "dictionary of {key} and {value}"),
            Call::Structure(fields) => {
                write!(f, "structure of")?;
                for n in fields.iter() {
                    write!(f, " {n}")?;
                }
                Ok(())
            }
            Call::Maybe(child) => write!(f, "maybe of {child}"),
        }
    }
}

// What is said of a number: its printed form, as far as it was taken, and its figures.
#[derive(Drop)]
struct Entry(Account);

impl fmt::Display for Entry {
    fn fmt<W: fmt::Write>(&self, f: &mut fmt::Formatter<W>) -> fmt::Result {
        let Account { printed, figures } = self.0;
        let Printed { taken, all } = printed;
        write!(f, "{taken} bytes taken, all {all}; {figures}")
    }
}

fn main(rt: HostRuntime) -> io::Result<()> {
    let mut types = [TypeRow::BLANK; 64];
    let mut fields = [FieldRow::BLANK; 64];
    let mut answers: [Result<u16, Refusal>; 14] = [Ok(UNIT); 14];
    let mut form = [b'.'; 24];
    let mut printed = BufferWriter::new(&mut form);
    let mut typed = MatchingWriter::new(b"a(std)");
    let mut history = replay(
        &mut types,
        &mut fields,
        &DAY,
        &mut answers,
        WAGE,
        &mut printed,
        SHIFTS,
        &mut typed,
    );
    for (call, answer) in DAY.iter().zip(answers) {
        println!(rt; "{}: {}", Asked(call), Answer(answer))?;
    }
    println!(rt; "{WAGE}: {}", Answer(history.first.map(Entry)))?;
    println!(rt; "{SHIFTS}: {}", Answer(history.second.map(Entry)))?;
    let (type_rows, field_rows) = history.sheet.counts();
    println!(rt; "rows in use: {type_rows} of types, {field_rows} of fields")?;
    println!(rt; "the wage's shape: {}", form.escape_ascii())
}
