// The byte at a place of a printed form.
ghost use Rattle.std.specs.Prelude.{◌≡◌, ◌+◌, ◌<◌, List, [], ◌∷◌, ◌++◌, length, MatchOption, nat_lt, slice_get};
ghost use Rattle.grammar.specs.Refusals.{outcome};
ghost use Rattle.grammar.specs.Shape.{Text};
ghost use Rattle.book.specs.Plain.{text_of, texts};
ghost use Rattle.forms.specs.Forms.{byte_of, length_in};
ghost use Rattle.sheet.specs.Seen.{book_in};
ghost use Rattle.forms.specs.Steps.{node_text, parts_of, node_in, fields_from, Leads, FieldHere};

use grammar::codes::CODES;
use grammar::error::Refusal;
use sheet::row::{FieldRow, Kind, TypeRow, place_of};
use sheet::sheet::Sheet;

// The byte itself, none past the end, or a part of the signature and the place in it.
enum Step {
    Done(Option<u8>),
    Part(u16, usize),
}

// The byte of Unit, which has none, or of a basic code.
fn first_byte(n: u16, p: usize) -> Option<u8>
    ensures { result ≡ slice_get (text_of [] n) p }
{
    if p > 0 {
        return None;
    }
    let i = n.checked_sub(1)?;
    CODES.get(usize::from(i)).copied()
}

// Whether `n` is a number of the sheet.
#[tactic(auto, using(crate::proofs::Known::is_ok_known))]
pub fn is_known(sheet: &mut Sheet, n: u16) -> bool
    ensures same { sheet.new ≡ sheet.old }
    ensures known { result ≡ nat_lt n (15 + length (book_in sheet.old)) }
{
    sheet.string_len(n).is_ok()
}

// How many bytes the printed form of `n` has, none where it is no number of the sheet. Printing asks this for each field on
// the way to each byte, so it compares numbers and reads the row itself.
pub fn length_of(sheet: &mut Sheet, n: u16) -> Option<u16>
    ensures same { sheet.new ≡ sheet.old }
    ensures long { result ≡ length_in (book_in sheet.old) n }
{
    if n < 15 {
        return Some(if n == 0 { 0 } else { 1 });
    }
    let row = sheet.type_row(place_of(n)?)?;
    Some(row.figures.length)
}

// How many bytes the printed form of a part has; a part that is no number of the sheet has the empty text.
#[tactic(auto, using(crate::proofs::Known::length_or_none))]
fn part_length(sheet: &mut Sheet, part: u16) -> usize
    ensures same { sheet.new ≡ sheet.old }
    ensures long { result ≡ length (text_of (book_in sheet.old) part) }
{
    usize::from(length_of(sheet, part).unwrap_or(0))
}

// How far place `p` is past the printed form of a part; none where it stands in that form.
fn past(sheet: &mut Sheet, part: u16, p: usize) -> Option<usize>
    ensures same { sheet.new ≡ sheet.old }
    ensures past { MatchOption result (p < length (text_of (book_in sheet.old) part)) (λ rest. length (text_of (book_in sheet.old) part) + rest ≡ p) }
{
    p.checked_sub(part_length(sheet, part))
}

// The field row numbered `at`, from 1; none at the end of a list of fields.
#[tactic(auto, using(crate::proofs::Texts::field_by))]
fn field_at(sheet: &mut Sheet, at: u16) -> Option<FieldRow>
    ensures same { sheet.new ≡ sheet.old }
    ensures field { MatchOption result (fields_from sheet.old at ≡ []) (λ x. FieldHere sheet.old at x) }
{
    let i = at.checked_sub(1)?;
    sheet.field_row(usize::from(i))
}

// A byte of what is written as a letter and a child.
fn child_step(letter: u8, child: u16, p: usize) -> Step
    ensures { (b : List Text) → Leads b (letter ∷ text_of b child) (child ∷ []) p result }
{
    match p.checked_sub(1) {
        Some(place) => Step::Part(child, place),
        None => Step::Done(Some(letter)),
    }
}

// A byte of a dictionary's key, value and closing brace.
fn pair_step(sheet: &mut Sheet, key: u16, value: u16, p: usize) -> Step
    ensures same { sheet.new ≡ sheet.old }
    ensures leads { Leads (book_in sheet.old) (texts (book_in sheet.old) (key ∷ value ∷ []) ++ 125 ∷ []) (key ∷ value ∷ []) p result }
{
    let Some(behind_key) = past(sheet, key, p) else {
        return Step::Part(key, p);
    };
    let Some(behind_value) = past(sheet, value, behind_key) else {
        return Step::Part(value, behind_key);
    };
    Step::Done((behind_value == 0).then_some(b'}'))
}

// A byte of a structure's fields, from the field row `first` on, and closing parenthesis. An iterator over the fields
// would hold the sheet, which is asked here for the length of each.
fn fields_step(sheet: &mut Sheet, first: u16, p: usize) -> Step
    ensures same { sheet.new ≡ sheet.old }
    ensures leads { Leads (book_in sheet.old) (texts (book_in sheet.old) (fields_from sheet.old first) ++ 41 ∷ []) (fields_from sheet.old first) p result }
{
    let mut at = first;
    let mut left = p;
    while let Some(row) = field_at(sheet, at) {
        let length = part_length(sheet, row.field);
        if left < length {
            return Step::Part(row.field, left);
        }
        left -= length;
        at = row.next;
    }
    Step::Done((left == 0).then_some(b')'))
}

// A byte of the printed form of a container, by its row.
fn row_step(sheet: &mut Sheet, row: TypeRow, p: usize) -> Step
    ensures same { sheet.new ≡ sheet.old }
    ensures leads { Leads (book_in sheet.old) (node_text (book_in sheet.old) (node_in sheet.old row)) (parts_of (node_in sheet.old row)) p result }
{
    match (row.kind, p) {
        (Kind::Array, _) => child_step(b'a', row.first, p),
        (Kind::Dict, 0) => Step::Done(Some(b'a')),
        (Kind::Dict, 1) => Step::Done(Some(b'{')),
        (Kind::Dict, _) => pair_step(sheet, row.first, row.second, p - 2),
        (Kind::Structure, 0) => Step::Done(Some(b'(')),
        (Kind::Structure, _) => fields_step(sheet, row.first, p - 1),
        _ => child_step(b'm', row.first, p),
    }
}

// The byte at place `p` of the printed form of `n`, none past its end. Each turn goes from a part into one of its own.
pub fn byte(sheet: &mut Sheet, n: u16, p: usize) -> Option<u8>
    ensures same { sheet.new ≡ sheet.old }
    ensures byte { result ≡ slice_get (text_of (book_in sheet.old) n) p }
{
    let mut part = n;
    let mut place = p;
    while let Some(i) = place_of(part) {
        let row = sheet.type_row(i)?;
        match row_step(sheet, row, place) {
            Step::Done(found) => return found,
            Step::Part(inner, behind) => {
                part = inner;
                place = behind;
            }
        }
    }
    first_byte(part, place)
}

// The byte at place `p` of the printed form of `n`, none past its end.
#[tactic(auto, unfolding(crate::specs::Forms::byte_of))]
pub fn byte_at(sheet: &mut Sheet, n: u16, p: usize) -> Result<Option<u8>, Refusal>
    ensures same { sheet.new ≡ sheet.old }
    ensures answer { outcome result ≡ byte_of (book_in sheet.old) n p }
{
    if !is_known(sheet, n) {
        return Err(Refusal::Unknown(0));
    }
    match past(sheet, n, p) {
        Some(_) => Ok(None),
        None => Ok(byte(sheet, n, p)),
    }
}
