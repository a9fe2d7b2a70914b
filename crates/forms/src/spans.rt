// Where the forms of a signature stand in its printed form.
ghost use Rattle.std.specs.Prelude.{◌≡◌, MatchResult};
ghost use Rattle.book.specs.Plain.{text_of};
ghost use Rattle.forms.specs.Forms.{bare_text, Paired};
ghost use Rattle.sheet.specs.Seen.{book_in};
ghost use Rattle.forms.specs.Spans.{Covers, NotKnown};

use grammar::error::Refusal;
use sheet::row::{Kind, place_of};
use sheet::sheet::Sheet;

// Some bytes of a printed form in a row: the place of the first, and how many. A `Range` would not be `Copy`.
#[derive(Clone, Copy)]
pub struct Span {
    pub from: usize,
    pub count: usize,
}

// Whether `n` is a structure.
fn is_structure(sheet: &mut Sheet, n: u16) -> bool
    ensures same { sheet.new ≡ sheet.old }
    ensures paired { Paired (text_of (book_in sheet.old) n) result }
{
    let Some(i) = place_of(n) else {
        return false;
    };
    match sheet.type_row(i) {
        Some(row) => row.kind == Kind::Structure,
        None => false,
    }
}

// The whole printed form of `n`.
pub fn whole(sheet: &mut Sheet, n: u16) -> Result<Span, Refusal>
    ensures same { sheet.new ≡ sheet.old }
    ensures covers { MatchResult result (λ x. Covers (book_in sheet.old) n (text_of (book_in sheet.old) n) x) (λ e. NotKnown (book_in sheet.old) n e) }
{
    let length = sheet.string_len(n)?;
    Ok(Span {
        from: 0,
        count: usize::from(length),
    })
}

// The bare form of `n`: of a structure what stands in its outermost pair, otherwise all.
pub fn bare(sheet: &mut Sheet, n: u16) -> Result<Span, Refusal>
    ensures same { sheet.new ≡ sheet.old }
    ensures covers { MatchResult result (λ x. Covers (book_in sheet.old) n (bare_text (text_of (book_in sheet.old) n)) x) (λ e. NotKnown (book_in sheet.old) n e) }
{
    let count = usize::from(sheet.string_len(n)?);
    if is_structure(sheet, n) {
        Ok(Span {
            from: 1,
            count: count - 2,
        })
    } else {
        Ok(Span { from: 0, count })
    }
}
