// The figures of a signature: those that its row holds, or those of a basic code.
ghost use Rattle.std.specs.Prelude.{◌≡◌, ◌<◌, MatchOption, MatchResult};
ghost use Rattle.layout.specs.Figured.{Figured, NotKnown};
ghost use Rattle.layout.specs.Format.{format_of};
ghost use Rattle.book.specs.Questions.{string_length_of, fixed_of, maybe_of, depths_of, alignment_in, alignment_of};
ghost use Rattle.grammar.specs.Refusals.{outcome};
ghost use Rattle.sheet.specs.Seen.{book_in, nodes_on};

use crate::row::place_of;
use crate::sheet::Sheet;
use grammar::error::Refusal;
use grammar::figures::Figures;
use layout::figures::first_figures;
use layout::serialized::Format;

// The alignment among the figures, if there is one.
fn alignment_in(figures: Figures, format: Format) -> Option<u8>
    ensures { MatchOption result (alignment_in (format_of format) figures ≡ 0) (λ a. (a ≡ alignment_in (format_of format) figures) × (0 < a)) }
{
    let alignment = match format {
        Format::DBus => figures.dbus,
        Format::GVariant => figures.gvariant,
    };
    (alignment > 0).then_some(alignment)
}

impl<'a> Sheet<'a> {
    // The figures of the number `n`, which stands at `position` among the numbers given.
    pub(crate) fn figures(&mut self, n: u16, position: usize) -> Result<Figures, Refusal>
        ensures same { self.new ≡ self.old }
        ensures figures { MatchResult result (λ f. Figured (nodes_on self.old) n f) (λ e. NotKnown (nodes_on self.old) n position e) }
    {
        let Some(i) = place_of(n) else {
            return Ok(first_figures(usize::from(n)));
        };
        match self.type_row(i) {
            Some(row) => Ok(row.figures),
            None => Err(Refusal::Unknown(position)),
        }
    }

    // The length of the printed form.
    pub fn string_len(&mut self, n: u16) -> Result<u16, Refusal>
        ensures same { self.new ≡ self.old }
        ensures answer { outcome result ≡ string_length_of (book_in self.old) n }
    {
        let figures = self.figures(n, 0)?;
        Ok(figures.length)
    }

    // The alignment in a format; a maybe has none in D-Bus.
    pub fn alignment(&mut self, n: u16, format: Format) -> Result<u8, Refusal>
        ensures same { self.new ≡ self.old }
        ensures answer { outcome result ≡ alignment_of (format_of format) (book_in self.old) n }
    {
        let figures = self.figures(n, 0)?;
        alignment_in(figures, format).ok_or(Refusal::WrongKind)
    }

    // Whether each value has the same size.
    pub fn is_fixed_sized(&mut self, n: u16) -> Result<bool, Refusal>
        ensures same { self.new ≡ self.old }
        ensures answer { outcome result ≡ fixed_of (book_in self.old) n }
    {
        let figures = self.figures(n, 0)?;
        Ok(figures.fixed)
    }

    // Whether the signature is or holds a maybe.
    pub fn contains_maybe(&mut self, n: u16) -> Result<bool, Refusal>
        ensures same { self.new ≡ self.old }
        ensures answer { outcome result ≡ maybe_of (book_in self.old) n }
    {
        let figures = self.figures(n, 0)?;
        Ok(figures.maybe)
    }

    // How deep structures are nested, and how deep arrays and dictionaries.
    pub fn depths(&mut self, n: u16) -> Result<(u16, u16), Refusal>
        ensures same { self.new ≡ self.old }
        ensures answer { outcome result ≡ depths_of (book_in self.old) n }
    {
        let figures = self.figures(n, 0)?;
        Ok((figures.structures, figures.arrays))
    }
}
