// The fields of a structure.
ghost use Rattle.std.specs.Prelude.{◌≡◌, [], ◌∷◌, MatchOption};
ghost use Rattle.grammar.specs.Refusals.{outcome};
ghost use Rattle.layout.specs.Tails.{tail_at};
ghost use Rattle.book.specs.Questions.{len_of, get_of, item_at};
ghost use Rattle.sheet.specs.Seen.{book_in, tails_on};

use crate::row::{FieldRow, Kind};
use crate::sheet::Sheet;
use grammar::error::Refusal;

impl<'a> Sheet<'a> {
    // How many fields a structure has.
    pub fn len(&mut self, n: u16) -> Result<u16, Refusal>
        ensures same { self.new ≡ self.old }
        ensures answer { outcome result ≡ len_of (book_in self.old) n }
    {
        let row = self.container(n)?;
        match row.kind {
            Kind::Structure => Ok(row.second),
            _ => Err(Refusal::WrongKind),
        }
    }

    // The field at `i`, counted from 0, or none past the end.
    pub fn get(&mut self, n: u16, i: usize) -> Result<Option<u16>, Refusal>
        ensures same { self.new ≡ self.old }
        ensures answer { outcome result ≡ get_of (book_in self.old) n i }
    {
        let row = self.container(n)?;
        match row.kind {
            Kind::Structure => Ok(self.item(row.first, i)),
            _ => Err(Refusal::WrongKind),
        }
    }

    // The number at `i`, counted from 0, of the list that begins at the field row `first`; none past the end.
    fn item(&mut self, first: u16, i: usize) -> Option<u16>
        ensures same { self.new ≡ self.old }
        ensures item { result ≡ item_at (tail_at (tails_on self.old) first) i }
    {
        let mut next = first;
        for _k in 0..i {
            next = self.numbered(next)?.next;
        }
        Some(self.numbered(next)?.field)
    }

    // The field row with the number `n`, from 1; 0 has none.
    fn numbered(&mut self, n: u16) -> Option<FieldRow>
        ensures same { self.new ≡ self.old }
        ensures row { MatchOption result (tail_at (tails_on self.old) n ≡ []) (λ x. tail_at (tails_on self.old) n ≡ x.field ∷ tail_at (tails_on self.old) x.next) }
    {
        self.field_row(usize::from(n).checked_sub(1)?)
    }
}
