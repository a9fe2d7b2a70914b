// Calls that may alter a sheet, as values.
ghost use Rattle.std.specs.Prelude.{◌≡◌};
ghost use Rattle.grammar.specs.Refusals.{outcome};
ghost use Rattle.sheet.specs.Seen.{CalledOn};
ghost use Rattle.history.specs.Calls.{call_of, calls_of};
ghost use Rattle.history.specs.Ran.{Ran};

use grammar::error::Refusal;
use sheet::sheet::Sheet;

// A call with its arguments.
#[derive(Clone, Copy, Drop)]
pub enum Call<'a> {
    FromBytes(&'a [u8]),
    Array(u16),
    Dict(u16, u16),
    Structure(&'a [u16]),
    Maybe(u16),
}

// Makes the call on the sheet.
pub fn make(sheet: &mut Sheet, call: &Call) -> Result<u16, Refusal>
    ensures { CalledOn sheet.old sheet.new (outcome result) (call_of call.now) }
{
    match call {
        Call::FromBytes(text) => sheet.from_bytes(text),
        Call::Array(child) => sheet.array(*child),
        Call::Dict(key, value) => sheet.dict(*key, *value),
        Call::Structure(fields) => sheet.structure(fields),
        Call::Maybe(child) => sheet.maybe(*child),
    }
}

// Makes the calls one after another, and keeps the answers of the first, as far as there are places.
pub fn make_all(sheet: &mut Sheet, calls: &[Call], answers: &mut [Result<u16, Refusal>])
    ensures { Ran (calls_of calls.now) sheet.old sheet.new answers.old answers.new }
{
    for (i, call) in calls.iter().enumerate() {
        let answer = make(sheet, call);
        // By index, since nothing is said of what a slice holds after `get_mut`.
        if i < answers.len() {
            answers[i] = answer;
        }
    }
}
