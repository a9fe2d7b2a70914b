// The types of a valid text, entered on a sheet.
ghost use Rattle.building.specs.Building.{BuildsWhole};
ghost use Rattle.sheet.specs.Seen.{book_in, limits_in, GrewTo};

use crate::sheet::Sheet;
use building::entering::build;
use building::maker::Maker;
use grammar::error::Refusal;

// A sheet as a maker. This type is private, and the sheet itself is no maker: else another crate could enter a text that
// was not judged first, and would not go back after a refusal.
#[derive(Drop)]
struct SheetMaker<'s, 'a> {
    sheet: &'s mut Sheet<'a>,
}

impl<'s, 'a> Maker for SheetMaker<'s, 'a> {
    ghost use Rattle.std.specs.Prelude.{◌≡◌};

    ghost book = { λ m. book_in m.sheet.now };

    ghost limits = { λ m. limits_in m.sheet.now };

    // The sheet is the same one.
    ghost grew = { λ m n. (n.sheet.ghost_name ≡ m.sheet.ghost_name) × GrewTo m.sheet.now n.sheet.now };

    fn make_array(&mut self, n: u16) -> Result<u16, Refusal> {
        self.sheet.array(n)
    }

    fn make_maybe(&mut self, n: u16) -> Result<u16, Refusal> {
        self.sheet.maybe(n)
    }

    fn make_dict(&mut self, k: u16, v: u16) -> Result<u16, Refusal> {
        self.sheet.dict(k, v)
    }

    fn make_structure(&mut self, fs: &[u16]) -> Result<u16, Refusal> {
        self.sheet.structure(fs)
    }
}

// All types of the text, and the number of the whole; after a refusal rows may be left over.
pub(crate) fn enter(sheet: &mut Sheet, text: &[u8]) -> Result<u16, Refusal>
    ensures grew { GrewTo sheet.old sheet.new }
    ensures builds { BuildsWhole (limits_in sheet.old) text.now (book_in sheet.old) result (book_in sheet.new) }
{
    build(&mut SheetMaker { sheet }, text)
}
