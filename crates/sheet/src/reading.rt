// A text's number on a sheet.
ghost use Rattle.grammar.specs.Refusals.{outcome};
ghost use Rattle.book.specs.Plain.{from_bytes as from_bytes_of};
ghost use Rattle.sheet.specs.Seen.{CalledOn};

use crate::entering::enter;
use crate::sheet::Sheet;
use grammar::error::Refusal;
use reader::parse;

// The most bytes that a text of several types may have, since its structure has a pair of parentheses more.
const LONGEST_ROW: usize = 65_533;

impl<'a> Sheet<'a> {
    // The number of the text's shape: Unit for the empty text, a type for one, their structure for several.
    pub fn from_bytes(&mut self, text: &[u8]) -> Result<u16, Refusal>
        ensures { CalledOn self.old self.new (outcome result) (from_bytes_of text.now) }
    {
        let types = parse(text)?;
        if types > 1 && text.len() > LONGEST_ROW {
            return Err(Refusal::FormTooLong);
        }
        let (type_rows, field_rows) = self.counts();
        match enter(self, text) {
            Ok(n) => Ok(n),
            Err(refusal) => {
                self.back(type_rows, field_rows);
                Err(refusal)
            }
        }
    }
}
