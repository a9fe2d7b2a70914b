// Complete types in a row: a list of types and a type call for each other.
ghost use Rattle.std.specs.Prelude.{◌≡◌, ◌-◌, ◌<◌, [], ◌∷◌};
ghost use Rattle.grammar.specs.Shape.{is_basic};
ghost use Rattle.grammar.specs.Refusals.{outcome};
ghost use Rattle.grammar.specs.Scan.{one, others, close};
ghost use Rattle.reader.specs.Parsing.{Parsed, Reading, CountedOr};
ghost use Rattle.reader.specs.Judged.{Judged, CountedIn};

use crate::cursor::Cursor;
use grammar::error::{Cause, Fault, Refusal};
use grammar::limits::LONGEST_TEXT;

// How deep structures may be nested, and how deep arrays and dictionaries.
const MAX_STRUCT_DEPTH: u8 = 32;

const MAX_ARRAY_DEPTH: u8 = 32;

// Whether `b` is the code of a basic type.
pub fn is_basic(b: u8) -> bool
    ensures { result ≡ is_basic b }
{
    matches!(
        b,
        b'y' | b'b'
            | b'n'
            | b'q'
            | b'i'
            | b'u'
            | b'x'
            | b't'
            | b'd'
            | b's'
            | b'g'
            | b'o'
            | b'v'
            | b'h'
    )
}

// What is wrong with the byte before the place.
fn behind(cursor: &Cursor, cause: Cause) -> Fault
    requires { 0 < cursor.now.at }
    ensures { result ≡ record { cause = cause; place = cursor.now.at - 1 } }
{
    Fault {
        cause,
        place: cursor.at - 1,
    }
}

// The end of a dictionary.
fn end(cursor: &mut Cursor) -> Result<(), Fault>
    ensures { Reading cursor.old (close ∷ []) result cursor.new }
{
    let Some(b) = cursor.take() else {
        return Err(Fault {
            cause: Cause::Ended,
            place: cursor.at,
        });
    };
    if b == b'}' {
        Ok(())
    } else {
        Err(behind(cursor, Cause::Unexpected))
    }
}

// A structure's types, one or more, and its end.
#[cycle(many_parse_signature)]
fn many(cursor: &mut Cursor, structures: u8, arrays: u8) -> Result<(), Fault>
    ensures text { cursor.new.text.now ≡ cursor.old.text.now }
    ensures read { Parsed cursor.old.text.now cursor.old.at (one structures arrays ∷ others structures arrays ∷ []) result cursor.new.at }
{
    parse_signature(cursor, structures, arrays)?;
    while !cursor.eat(b')') {
        parse_signature(cursor, structures, arrays)?;
    }
    Ok(())
}

// A complete type, in which so many more structures and arrays may be nested.
#[cycle(many_parse_signature)]
fn parse_signature(cursor: &mut Cursor, structures: u8, arrays: u8) -> Result<(), Fault>
    ensures text { cursor.new.text.now ≡ cursor.old.text.now }
    ensures read { Parsed cursor.old.text.now cursor.old.at (one structures arrays ∷ []) result cursor.new.at }
{
    let b = loop {
        let Some(b) = cursor.take() else {
            return Err(Fault {
                cause: Cause::Ended,
                place: cursor.at,
            });
        };
        if b != b'm' {
            break b;
        }
    };
    match b {
        b'a' if arrays > 0 => {
            if cursor.eat(b'{') {
                parse_signature(cursor, structures, arrays - 1)?;
                parse_signature(cursor, structures, arrays - 1)?;
                end(cursor)
            } else {
                parse_signature(cursor, structures, arrays - 1)
            }
        }
        b'(' if structures > 0 => many(cursor, structures - 1, arrays),
        b'a' => Err(behind(cursor, Cause::TooDeep)),
        b'(' => Err(behind(cursor, Cause::TooDeep)),
        _ if is_basic(b) => Ok(()),
        _ => Err(behind(cursor, Cause::Unexpected)),
    }
}

// How many complete types stand in a row up to the end of the text.
fn parse_all(text: &[u8]) -> Result<usize, Fault>
    ensures { CountedOr text.now result }
{
    let mut cursor = Cursor::new(text);
    let mut types = 0;
    while !cursor.at_end() {
        parse_signature(&mut cursor, MAX_STRUCT_DEPTH, MAX_ARRAY_DEPTH)?;
        types += 1;
    }
    Ok(types)
}

// How many complete types `text` has, or else why and where it is no signature.
pub fn parse(text: &[u8]) -> Result<usize, Refusal>
    ensures judged { Judged text.now (outcome result) }
    ensures counted { CountedIn text.now (outcome result) }
{
    if text.len() > LONGEST_TEXT {
        return Err(Refusal::TextTooLong);
    }
    let types = parse_all(text)?;
    Ok(types)
}

// Whether `text` is a signature, or else why and where it is none.
pub fn validate(text: &[u8]) -> Result<(), Refusal>
    ensures { Judged text.now (outcome result) }
{
    parse(text)?;
    Ok(())
}
