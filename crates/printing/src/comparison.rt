// A text compared with the forms of a signature.
ghost use Rattle.std.specs.Prelude.{◌≡◌};
ghost use Rattle.grammar.specs.Refusals.{outcome};
ghost use Rattle.book.specs.Plain.{same_text, text_of};
ghost use Rattle.sheet.specs.Seen.{book_in};
ghost use Rattle.printing.specs.Forms.{eq_text_of};
ghost use Rattle.forms.specs.Spans.{bytes_in, Inside};

use crate::printing::offer_span;
use forms::spans::{Span, bare, whole};
use grammar::error::Refusal;
use sheet::sheet::Sheet;
use writers::writer::MatchingWriter;

// Whether the text is just these bytes of the printed form of `n`.
fn is_span(sheet: &mut Sheet, n: u16, span: Span, text: &[u8]) -> bool
    requires { Inside (text_of (book_in sheet.old) n) span }
    ensures same { sheet.new ≡ sheet.old }
    ensures equal { result ≡ same_text text.now (bytes_in span (text_of (book_in sheet.old) n)) }
{
    let mut w = MatchingWriter::new(text);
    let printed = offer_span(sheet, n, span, &mut w);
    printed.all && printed.taken == text.len()
}

// Whether the text is the printed or the bare form of `n`.
#[tactic(auto, unfolding(crate::specs::Forms::eq_text_of))]
pub fn eq_text(sheet: &mut Sheet, n: u16, text: &[u8]) -> Result<bool, Refusal>
    ensures same { sheet.new ≡ sheet.old }
    ensures answer { outcome result ≡ eq_text_of (book_in sheet.old) n text.now }
{
    let printed = whole(sheet, n)?;
    let inner = bare(sheet, n)?;
    Ok(is_span(sheet, n, printed, text) || is_span(sheet, n, inner, text))
}
