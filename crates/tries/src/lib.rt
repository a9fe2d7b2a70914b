// Tries of a sheet at its limits: the deepest and the widest shapes, and as many rows as there are.
#![tactic(auto)]

ghost use Rattle.std.specs.Prelude.{[], ◌∷◌, Ok, IfOk};
ghost use Rattle.tries.specs.Asked.{AllAsked};

use answers::Answer;
use grammar::error::Refusal;
use sheet::row::{FieldRow, TypeRow};
use sheet::sheet::Sheet;
use std::io;
use std::iter::successors;

// Writes what a call answered and how many rows are then in use.
fn show(
    rt: &HostRuntime,
    name: &str,
    answer: Result<u16, Refusal>,
    sheet: &mut Sheet,
) -> io::Result<()> {
    let (types, fields) = sheet.counts();
    println!(rt; "{name}: {}, rows {types} {fields}", Answer(answer))
}

// Arrays in one another, until one is refused; `at_place` is done at the last two places of the deepest and at the next.
fn deep<F: Fn(&mut Sheet, u16, usize) -> io::Result<()>>(
    rt: &HostRuntime,
    at_place: &F,
) -> io::Result<()>
    requires { F.IsAlwaysCallable at_place.now }
    ensures { IfOk result (λ _. AllAsked (λ s n p s'. F.post at_place.now s n p (Ok tt) s') (65519 ∷ 65520 ∷ 65521 ∷ [])) }
{
    let mut types = [TypeRow::BLANK; 65_535];
    let mut fields = [FieldRow::BLANK; 1];
    let mut sheet = Sheet::open(&mut types, &mut fields);
    let (made, n) = successors(Some(1), |n| sheet.array(*n).ok())
        .take(65_536)
        .enumerate()
        .last()
        .unwrap_or((0, 1));
    let answer = sheet.array(n);
    show(rt, "one array more", answer, &mut sheet)?;
    let length = Answer(sheet.string_len(n));
    let depths = sheet.depths(n);
    let structures = Answer(depths.map(|(structures, _)| structures));
    let arrays = Answer(depths.map(|(_, arrays)| arrays));
    println!(rt; "{made} arrays: number {n}, length {length}, depths {structures} {arrays}")?;
    at_place(&mut sheet, n, 65_519)?;
    at_place(&mut sheet, n, 65_520)?;
    at_place(&mut sheet, n, 65_521)?;
    Ok(())
}

// A structure of as many fields as can be, and of one more; and texts of as many types.
fn wide<F: Fn(&mut Sheet, u16, usize) -> io::Result<()>>(
    rt: &HostRuntime,
    at_place: &F,
) -> io::Result<()>
    requires { F.IsAlwaysCallable at_place.now }
    ensures { IfOk result (λ _. AllAsked (λ s n p s'. F.post at_place.now s n p (Ok tt) s') (65533 ∷ 65534 ∷ [])) }
{
    let mut types = [TypeRow::BLANK; 4];
    let mut fields = [FieldRow::BLANK; 65_535];
    let mut sheet = Sheet::open(&mut types, &mut fields);
    let bytes = [1u16; 65_534];
    let answer = sheet.structure(&bytes);
    show(rt, "65534 fields", answer, &mut sheet)?;
    let answer = sheet.structure(&bytes[..65_533]);
    show(rt, "65533 fields", answer, &mut sheet)?;
    let text = [b'y'; 65_536];
    let answer = sheet.from_bytes(&text[..65_533]);
    show(rt, "65533 y", answer, &mut sheet)?;
    let answer = sheet.from_bytes(&text[..65_534]);
    show(rt, "65534 y", answer, &mut sheet)?;
    let answer = sheet.from_bytes(&text);
    show(rt, "65536 y", answer, &mut sheet)?;
    at_place(&mut sheet, 15, 65_533)?;
    at_place(&mut sheet, 15, 65_534)?;
    Ok(())
}

// A run of `m` as long as the rows go, and one longer.
fn maybes(rt: &HostRuntime) -> io::Result<()> {
    let mut types = [TypeRow::BLANK; 65_535];
    let mut fields = [FieldRow::BLANK; 1];
    let mut sheet = Sheet::open(&mut types, &mut fields);
    let mut text = [b'm'; 65_535];
    text[65_534] = b'y';
    let answer = sheet.from_bytes(&text);
    show(rt, "65534 m", answer, &mut sheet)?;
    let answer = sheet.from_bytes(&text[14..]);
    show(rt, "65520 m", answer, &mut sheet)
}

// A text that needs two type rows and four field rows, on a sheet of these rows.
fn few(rt: &HostRuntime, types: &mut [TypeRow], fields: &mut [FieldRow]) -> io::Result<()> {
    let mut sheet = Sheet::open(types, fields);
    let answer = sheet.from_bytes(b"(s(xx))");
    show(rt, "(s(xx))", answer, &mut sheet)?;
    let answer = sheet.from_bytes(b"y");
    show(rt, "y", answer, &mut sheet)
}

// Makes all tries and writes their answers; `at_place` is done at places round the ends of the deepest and the widest form.
pub fn try_limits<F: Fn(&mut Sheet, u16, usize) -> io::Result<()>>(
    rt: &HostRuntime,
    at_place: F,
) -> io::Result<()>
    requires { F.IsAlwaysCallable at_place }
    ensures { IfOk result (λ _. AllAsked (λ s n p s'. F.post at_place s n p (Ok tt) s') (65519 ∷ 65520 ∷ 65521 ∷ 65533 ∷ 65534 ∷ [])) }
{
    deep(rt, &at_place)?;
    wide(rt, &at_place)?;
    maybes(rt)?;
    few(rt, &mut [TypeRow::BLANK; 2], &mut [FieldRow::BLANK; 4])?;
    few(rt, &mut [TypeRow::BLANK; 1], &mut [FieldRow::BLANK; 4])?;
    few(rt, &mut [TypeRow::BLANK; 2], &mut [FieldRow::BLANK; 3])?;
    few(rt, &mut [], &mut [])?;
    Ok(())
}
