// Field lists, laid as field rows.
ghost use Rattle.std.specs.Prelude.{◌≡◌, ◌+◌, ◌<◌, ◌≤◌, length, MatchOption, MatchResult};
ghost use Rattle.grammar.specs.declared.error.Refusal.TheVariants.{Unknown as NoNumber, UnitPart as NoPart};
ghost use Rattle.grammar.specs.Refusals.{outcome};
ghost use Rattle.book.specs.Makers.{unknown_at, unit_at, structure_placed};
ghost use Rattle.layout.specs.Laid.{Ready, Laid, NoRoom};
ghost use Rattle.layout.specs.Kept.{nodes_of, tails_in};
ghost use Rattle.layout.specs.Made.{Made};
ghost use Rattle.layout.specs.Structured.{Whole, Structured};

use crate::row::{FieldRow, Kind, TypeRow, number_at};
use grammar::error::Refusal;
use grammar::figures::Figures;
use rows::RowList;

// Refuses the first number that is not below `known`.
pub(crate) fn all_known(fs: &[u16], known: u16) -> Result<(), Refusal>
    ensures { MatchResult result (λ _. length fs.now ≤ unknown_at known fs.now) (λ e. (e ≡ NoNumber (unknown_at known fs.now)) × (unknown_at known fs.now < length fs.now)) }
{
    match fs.iter().position(|f| *f >= known) {
        Some(i) => Err(Refusal::Unknown(i)),
        None => Ok(()),
    }
}

// Refuses the first Unit.
pub(crate) fn no_unit(fs: &[u16]) -> Result<(), Refusal>
    ensures { MatchResult result (λ _. length fs.now ≤ unit_at fs.now) (λ e. (e ≡ NoPart (unit_at fs.now)) × (unit_at fs.now < length fs.now)) }
{
    match fs.iter().position(|f| *f == 0) {
        Some(i) => Err(Refusal::UnitPart(i)),
        None => Ok(()),
    }
}

// Lays the tails of `fs`, the shortest first, and answers where the whole list stands; all of them or none.
fn lay(list: &mut RowList<FieldRow>, fs: &[u16]) -> Option<u16>
    requires ready { Ready list.old.rows.now list.old.count list.old.cap }
    requires short { length fs.now ≤ 65535 }
    ensures cap { list.new.cap ≡ list.old.cap }
    ensures laid { MatchOption result (NoRoom list.old.rows.now list.old.count list.old.cap fs.now list.new.rows.now list.new.count) (λ p. Laid list.old.rows.now list.old.count list.old.cap fs.now 0 list.new.rows.now list.new.count p) }
{
    let start = list.len();
    let mut next = 0;
    for (i, field) in fs.iter().enumerate().rev() {
        let row = FieldRow {
            field: *field,
            next,
            count: (fs.len() - i) as u16,
        };
        match list.find_or_add(row) {
            Some(at) => next = at as u16 + 1,
            None => {
                list.truncate(start, FieldRow::BLANK);
                return None;
            }
        }
    }
    Some(next)
}

// The number of the structure of the fields `fs`; a new one is added, with the field rows that it needs.
pub(crate) fn file_structure(
    types: &mut RowList<TypeRow>,
    fields: &mut RowList<FieldRow>,
    fs: &[u16],
    figures: Figures,
) -> Result<u16, Refusal>
    requires whole { Whole types.old fields.old }
    requires structure { Structured types.old fields.old fs.now figures }
    ensures made { Made types.old fields.old types.new fields.new (outcome result) (structure_placed types.old.cap fields.old.cap (nodes_of types.old fields.old) (tails_in fields.old) fs.now) }
    ensures whole { Whole types.new fields.new }
{
    let start = fields.len();
    let Some(first) = lay(fields, fs) else {
        return Err(Refusal::NoRows);
    };
    match types.find_or_add(TypeRow {
        kind: Kind::Structure,
        first,
        second: fs.len() as u16,
        figures,
    }) {
        Some(i) => Ok(number_at(i)),
        None => {
            fields.truncate(start, FieldRow::BLANK);
            Err(Refusal::NoRows)
        }
    }
}
