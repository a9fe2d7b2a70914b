// Signatures of one sheet, compared.
ghost use Rattle.std.specs.Prelude.{◌≡◌};
ghost use Rattle.grammar.specs.Refusals.{outcome};
ghost use Rattle.book.specs.Questions.{equal_of};
ghost use Rattle.sheet.specs.Seen.{book_in};

use crate::sheet::Sheet;
use grammar::error::Refusal;

impl<'a> Sheet<'a> {
    // Whether two numbers are those of equal signatures.
    pub fn eq(&mut self, a: u16, b: u16) -> Result<bool, Refusal>
        ensures same { self.new ≡ self.old }
        ensures answer { outcome result ≡ equal_of (book_in self.old) a b }
    {
        self.figures(a, 0)?;
        self.figures(b, 1)?;
        Ok(a == b)
    }
}
