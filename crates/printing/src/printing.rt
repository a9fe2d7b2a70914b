// Printed and bare forms, offered to a writer or put into a buffer.
ghost use Rattle.std.specs.Prelude.{◌≡◌, length, take};
ghost use Rattle.grammar.specs.Refusals.{outcome};
ghost use Rattle.book.specs.Plain.{text_of};
ghost use Rattle.writers.specs.State.{Took, Wrote};
ghost use Rattle.forms.specs.Forms.{bare_text};
ghost use Rattle.sheet.specs.Seen.{book_in};
ghost use Rattle.printing.specs.Forms.{written_of, count_in, OnRefusal, filling, into_of, into_after};
ghost use Rattle.forms.specs.Spans.{bytes_in, Inside};

use forms::bytes::byte;
use forms::spans::{Span, bare, whole};
use grammar::error::Refusal;
use sheet::sheet::Sheet;
use writers::writer::{BufferWriter, Writer};

// How many bytes a writer took, and whether those were all.
#[derive(Clone, Copy)]
pub struct Printed {
    pub taken: usize,
    pub all: bool,
}

// Offers some bytes of the printed form of `n` in order, until one is declined.
pub(crate) fn offer_span<W: Writer>(sheet: &mut Sheet, n: u16, span: Span, w: &mut W) -> Printed
    requires { Inside (text_of (book_in sheet.old) n) span }
    ensures same { sheet.new ≡ sheet.old }
    ensures wrote { Wrote (W.state w.old) (W.state w.new) (bytes_in span (text_of (book_in sheet.old) n)) result.taken result.all }
{
    for taken in 0..span.count {
        let b = byte(sheet, n, span.from + taken).unwrap();
        if !w.offer(b) {
            return Printed { taken, all: false };
        }
    }
    Printed {
        taken: span.count,
        all: true,
    }
}

// Offers the printed form of `n` to the writer, byte by byte, until one is declined.
#[tactic(auto, unfolding(crate::specs::Forms::written_of))]
pub fn write_as_string<W: Writer>(sheet: &mut Sheet, n: u16, w: &mut W) -> Result<Printed, Refusal>
    ensures same { sheet.new ≡ sheet.old }
    ensures answer { outcome result ≡ written_of (book_in sheet.old) n (text_of (book_in sheet.old) n) (W.state w.old) }
    ensures took { Took (W.state w.old) (W.state w.new) (take (count_in (outcome result)) (text_of (book_in sheet.old) n)) }
    ensures still { OnRefusal (outcome result) (w.new ≡ w.old) }
{
    let span = whole(sheet, n)?;
    Ok(offer_span(sheet, n, span, w))
}

// The same with the bare form.
#[tactic(auto, unfolding(crate::specs::Forms::written_of))]
pub fn write_as_string_no_parens<W: Writer>(
    sheet: &mut Sheet,
    n: u16,
    w: &mut W,
) -> Result<Printed, Refusal>
    ensures same { sheet.new ≡ sheet.old }
    ensures answer { outcome result ≡ written_of (book_in sheet.old) n (bare_text (text_of (book_in sheet.old) n)) (W.state w.old) }
    ensures took { Took (W.state w.old) (W.state w.new) (take (count_in (outcome result)) (bare_text (text_of (book_in sheet.old) n))) }
    ensures still { OnRefusal (outcome result) (w.new ≡ w.old) }
{
    let span = bare(sheet, n)?;
    Ok(offer_span(sheet, n, span, w))
}

// Puts some bytes of the printed form of `n` to the front of the buffer, if it has room for all of them.
fn fill(sheet: &mut Sheet, n: u16, span: Span, buffer: &mut [u8]) -> Result<usize, Refusal>
    requires { Inside (text_of (book_in sheet.old) n) span }
    ensures same { sheet.new ≡ sheet.old }
    ensures answer { outcome result ≡ filling (bytes_in span (text_of (book_in sheet.old) n)) (length buffer.old) }
    ensures after { buffer.new ≡ into_after (outcome result) (bytes_in span (text_of (book_in sheet.old) n)) buffer.old }
{
    if buffer.len() < span.count {
        return Err(Refusal::ShortBuffer);
    }
    let mut w = BufferWriter::new(buffer);
    let printed = offer_span(sheet, n, span, &mut w);
    Ok(printed.taken)
}

// Writes the printed form of `n` to the front of the buffer, all of it or nothing, and answers its length.
#[tactic(auto, unfolding(crate::specs::Forms::into_of))]
pub fn to_string(sheet: &mut Sheet, n: u16, buffer: &mut [u8]) -> Result<usize, Refusal>
    ensures same { sheet.new ≡ sheet.old }
    ensures answer { outcome result ≡ into_of (book_in sheet.old) n (text_of (book_in sheet.old) n) (length buffer.old) }
    ensures after { buffer.new ≡ into_after (outcome result) (text_of (book_in sheet.old) n) buffer.old }
{
    let span = whole(sheet, n)?;
    fill(sheet, n, span, buffer)
}

// The same with the bare form.
#[tactic(auto, unfolding(crate::specs::Forms::into_of))]
pub fn to_string_no_parens(sheet: &mut Sheet, n: u16, buffer: &mut [u8]) -> Result<usize, Refusal>
    ensures same { sheet.new ≡ sheet.old }
    ensures answer { outcome result ≡ into_of (book_in sheet.old) n (bare_text (text_of (book_in sheet.old) n)) (length buffer.old) }
    ensures after { buffer.new ≡ into_after (outcome result) (bare_text (text_of (book_in sheet.old) n)) buffer.old }
{
    let inner = bare(sheet, n)?;
    fill(sheet, n, inner, buffer)
}
