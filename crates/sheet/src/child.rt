// The row of a container, and the parts of one that is no structure.
ghost use Rattle.std.specs.Prelude.{◌≡◌, MatchResult};
ghost use Rattle.grammar.specs.Refusals.{outcome};
ghost use Rattle.layout.specs.Kept.{fields_in};
ghost use Rattle.layout.specs.Figured.{NotKnown};
ghost use Rattle.layout.specs.Asked.{Shown};
ghost use Rattle.book.specs.Questions.{child_of, key_of, value_of};
ghost use Rattle.sheet.specs.Seen.{book_in, nodes_on};

use crate::row::{Kind, TypeRow, place_of};
use crate::sheet::Sheet;
use grammar::error::Refusal;

impl<'a> Sheet<'a> {
    // The row of the number `n`; a blank one for Unit and the basic codes, which have none.
    pub(crate) fn container(&mut self, n: u16) -> Result<TypeRow, Refusal>
        ensures same { self.new ≡ self.old }
        ensures row { MatchResult result (λ x. Shown (nodes_on self.old) (fields_in self.old.fields) n x) (λ e. NotKnown (nodes_on self.old) n 0 e) }
    {
        match place_of(n) {
            Some(i) => self.type_row(i).ok_or(Refusal::Unknown(0)),
            None => Ok(TypeRow::BLANK),
        }
    }

    // The child of an array or a maybe.
    pub fn child(&mut self, n: u16) -> Result<u16, Refusal>
        ensures same { self.new ≡ self.old }
        ensures answer { outcome result ≡ child_of (book_in self.old) n }
    {
        let row = self.container(n)?;
        match row.kind {
            Kind::Array | Kind::Maybe => Ok(row.first),
            _ => Err(Refusal::WrongKind),
        }
    }

    // The key of a dictionary.
    pub fn key(&mut self, n: u16) -> Result<u16, Refusal>
        ensures same { self.new ≡ self.old }
        ensures answer { outcome result ≡ key_of (book_in self.old) n }
    {
        let pair = self.container(n)?;
        match pair.kind {
            Kind::Dict => Ok(pair.first),
            _ => Err(Refusal::WrongKind),
        }
    }

    // The value of a dictionary.
    pub fn value(&mut self, n: u16) -> Result<u16, Refusal>
        ensures same { self.new ≡ self.old }
        ensures answer { outcome result ≡ value_of (book_in self.old) n }
    {
        let row = self.container(n)?;
        match row.kind {
            Kind::Dict => Ok(row.second),
            _ => Err(Refusal::WrongKind),
        }
    }
}
