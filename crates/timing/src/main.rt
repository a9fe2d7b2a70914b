// Repeats a job with the lines of standard input, for tools/bench/run to time.
//
// usage: timing JOB TIMES
// Every line is filed on one sheet. The job is then done so many times with each line that does not begin with `#`, and
// the answers are added up. What is written tells that the work was done, and not how long it took.
#![tactic(auto)]

use anyhow::anyhow;
use printing::comparison::eq_text;
use printing::printing::to_string;
use sheet::row::{FieldRow, TypeRow};
use sheet::sheet::Sheet;
use std::env;
use std::io::{BufRead, BufReader};
use std::str::FromStr;
use thiserror::Error;

// How many rows of each kind the sheet has.
const ROWS: usize = 8_192;

// How many rows of each kind a fresh sheet has at most.
const FRESH: usize = 256;

// How many bytes a printed form may have.
const LONGEST_FORM: usize = 2_048;

#[derive(Clone, Copy)]
enum Job {
    // Reads the text on a fresh sheet.
    New,
    // Reads the text on the sheet where it is filed.
    Known,
    // Prints the number's form.
    Print,
    // Compares the number with the text.
    Equal,
}

// A text and its number on the sheet.
#[derive(Drop)]
struct Line {
    text: String,
    number: u16,
}

// A word names no job.
#[derive(Debug, Drop, Error)]
#[error("the jobs are new, known, print and equal")]
struct NoSuchJob;

impl FromStr for Job {
    type Err = NoSuchJob;

    fn from_str(name: &str) -> Result<Job, NoSuchJob> {
        match name {
            "new" => Ok(Job::New),
            "known" => Ok(Job::Known),
            "print" => Ok(Job::Print),
            "equal" => Ok(Job::Equal),
            _ => Err(NoSuchJob),
        }
    }
}

// The text's number on a fresh sheet of as many rows as the text has bytes, which are enough for it.
fn read_new(types: &mut [TypeRow; FRESH], fields: &mut [FieldRow; FRESH], text: &[u8]) -> u16 {
    let rows = text.len().min(FRESH);
    let mut sheet = Sheet::open(&mut types[..rows], &mut fields[..rows]);
    sheet.from_bytes(text).unwrap_or(0)
}

// The length of the printed form of `number` and its first byte, added up.
fn print(sheet: &mut Sheet, form: &mut [u8; LONGEST_FORM], number: u16) -> u64 {
    let length = to_string(sheet, number, form).unwrap_or(0);
    (length as u64).wrapping_add(u64::from(form[0]))
}

// Does the work with each line, so many times, and adds up the answers.
fn repeat<F: FnMut(&Line) -> u64>(times: u32, lines: &[Line], mut work: F) -> u64
    requires { F.IsAlwaysCallable work }
{
    let mut sum = 0u64;
    for _ in 0..times {
        for line in lines {
            sum = sum.wrapping_add(work(line));
        }
    }
    sum
}

// Does the job with each line, so many times, and adds up the answers.
fn repeat_job(job: Job, times: u32, sheet: &mut Sheet, lines: &[Line]) -> u64 {
    match job {
        Job::New => {
            let mut types = [TypeRow::BLANK; FRESH];
            let mut fields = [FieldRow::BLANK; FRESH];
            repeat(
                times,
                lines,
                |line| u64::from(read_new(&mut types, &mut fields, line.text.as_bytes())),
            )
        }
        Job::Known => repeat(
            times,
            lines,
            |line| u64::from(sheet.from_bytes(line.text.as_bytes()).unwrap_or(0)),
        ),
        Job::Print => {
            let mut form = [0; LONGEST_FORM];
            repeat(times, lines, |line| print(sheet, &mut form, line.number))
        }
        Job::Equal => repeat(
            times,
            lines,
            |line| u64::from(eq_text(sheet, line.number, line.text.as_bytes()).unwrap_or(false)),
        ),
    }
}

fn main(rt: HostRuntime) -> anyhow::Result<()> {
    let mut args = env::args(&rt)?.skip(1);
    let (Some(name), Some(times)) = (args.next(), args.next()) else {
        return Err(anyhow!("usage: timing JOB TIMES"));
    };
    let job = name.as_str().parse::<Job>()?;
    let times = times.as_str().parse::<u32>()?;
    let mut types = [TypeRow::BLANK; ROWS];
    let mut fields = [FieldRow::BLANK; ROWS];
    let mut sheet = Sheet::open(&mut types, &mut fields);
    let mut lines = Vec::new(rt.alloc());
    for text in BufReader::new(rt.alloc(), rt.stdin())?.lines(rt.alloc()) {
        let text = text?;
        if let Some(rest) = text.as_str().strip_prefix('#') {
            let _ = sheet.from_bytes(rest.as_bytes());
            continue;
        }
        let number = sheet.from_bytes(text.as_bytes()).unwrap_or(0);
        lines.push(Line { text, number })?;
    }
    let sum = repeat_job(job, times, &mut sheet, lines.as_slice());
    let count = lines.len();
    let (types, fields) = sheet.counts();
    println!(rt; "{name}: {count} lines, {types} type rows, {fields} field rows, sum {sum}")?;
    Ok(())
}
