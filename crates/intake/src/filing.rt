// A line filed on a sheet.
ghost use Rattle.std.specs.Prelude.{◌≡◌, ◌+◌, true, length, nat_lt};
ghost use Rattle.grammar.specs.Refusals.{outcome};
ghost use Rattle.book.specs.Plain.{from_bytes as from_bytes_of, text_of};
ghost use Rattle.sheet.specs.Seen.{book_in, CalledOn};
ghost use Rattle.intake.specs.Filing.{number_in, Told};

use crate::filed::Filed;
use grammar::error::Refusal;
pub use grammar::limits::LONGEST_FORM;
use history::account::figures_of;
use printing::printing::to_string;
use sheet::sheet::Sheet;

// The printed form of `n`, which has `size` bytes, at the front of `form`.
fn form_of<'a>(sheet: &mut Sheet, n: u16, size: u16, form: &'a mut [u8; LONGEST_FORM]) -> &'a [u8]
    requires known { nat_lt n (15 + length (book_in sheet.old)) ≡ true }
    requires size { size ≡ length (text_of (book_in sheet.old) n) }
    ensures same { sheet.new ≡ sheet.old }
    ensures form { result.now ≡ text_of (book_in sheet.old) n }
{
    let count = to_string(sheet, n, form).unwrap();
    &form[0..count]
}

// The number of the line's shape and its figures; its printed form goes to the front of `form`.
pub fn file<'a>(
    sheet: &mut Sheet,
    line: &[u8],
    form: &'a mut [u8; LONGEST_FORM],
) -> Result<Filed<'a>, Refusal>
    ensures called { CalledOn sheet.old sheet.new (number_in (outcome result)) (from_bytes_of line.now) }
    ensures told { Told (book_in sheet.new) (outcome result) }
{
    let number = sheet.from_bytes(line)?;
    let figures = figures_of(sheet, number)?;
    let form = form_of(sheet, number, figures.length, form);
    Ok(Filed {
        number,
        figures,
        form,
    })
}
