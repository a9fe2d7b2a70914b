// The types of a valid text, entered with a maker: a list of types and a type call for each other, as in reading.
ghost use Rattle.std.specs.Prelude.{◌≡◌, [], ◌+◌, ◌-◌, ◌≤◌, ◌==◌, false, length, position, MatchOption};
ghost use Rattle.grammar.specs.Shape.{is_basic};
ghost use Rattle.building.specs.Building.{CodeNumber, Builds, BuildsBare, BuildsFields, BuildsWhole, Goes, Skips, Wraps};

use crate::maker::Maker;
use arrayvec::ArrayVec;
use grammar::codes::CODES;
use grammar::error::Refusal;
use grammar::limits::LONGEST_TEXT;
use reader::cursor::Cursor;

// How many bytes a text may have for the small stack of pending fields.
const FEW: usize = 256;

// Where `b` stands first in `bytes`.
fn place_of(b: u8, bytes: &[u8]) -> Option<usize>
    ensures { result ≡ position (λ c. c == b) bytes.now }
{
    bytes.iter().position(|c| *c == b)
}

// The number of the basic type whose code is `b`.
fn code_number(b: u8) -> Option<u16>
    ensures { MatchOption result (is_basic b ≡ false) (λ n. CodeNumber b n) }
{
    let i = place_of(b, &CODES)?;
    Some(i as u16 + 1)
}

// How many `m` come next, which are passed.
fn skip_maybes(cursor: &mut Cursor) -> usize
    ensures text { cursor.new.text.now ≡ cursor.old.text.now }
    ensures forward { cursor.old.at ≤ cursor.new.at }
    ensures skips { Skips cursor.old.text.now cursor.old.at result cursor.new.at }
{
    let first = cursor.place();
    while cursor.eat(b'm') {}
    cursor.place() - first
}

// `n` behind so many `m`.
fn wrap<M: Maker>(maker: &mut M, n: u16, maybes: usize) -> Result<u16, Refusal>
    ensures grew { Goes M.grew M.limits maker.old maker.new }
    ensures wraps { Wraps (M.limits maker.old) maybes n (M.book maker.old) result (M.book maker.new) }
{
    let mut n = n;
    for _i in 0..maybes {
        n = maker.make_maybe(n)?;
    }
    Ok(n)
}

// What enters a text with a maker, at a place in the text. The numbers of fields that wait for their structure lie on a
// stack that all levels share; a text needs no more places there than it has bytes.
#[derive(Drop)]
struct Builder<'m, 't, M, const N: usize> {
    maker: &'m mut M,
    cursor: Cursor<'t>,
    pending: ArrayVec<u16, N>,
    ghost room: { length pending.items + (length cursor.text.now - cursor.at) ≤ N },
}

impl<'m, 't, M: Maker, const N: usize> Builder<'m, 't, M, N> {
    ghost use Rattle.building.specs.Steps.{Came, Went};

    // At the start of a text of at most `N` bytes.
    fn new(maker: &'m mut M, text: &'t [u8]) -> Builder<'m, 't, M, N>
        requires room { length text.now ≤ N }
        requires small { N ≤ 65535 }
        ensures same_maker { result.maker.ghost_name ≡ maker.entry.ghost_name }
        ensures maker { result.maker.now ≡ maker.old }
        ensures text { result.cursor.text.now ≡ text.now }
        ensures start { result.cursor.at ≡ 0 }
        ensures empty { result.pending.items ≡ [] }
    {
        Builder {
            maker,
            cursor: Cursor::new(text),
            pending: ArrayVec::new(),
        }
    }

    // The types up to `)`, and the structure of them.
    #[cycle(bare_signature_many_signature)]
    fn many(&mut self) -> Result<u16, Refusal>
        ensures went { Went M.grew M.limits self.old self.new result }
        ensures builds { Came BuildsFields M.limits M.book self.old result self.new }
    {
        let base = self.pending.len();
        while !self.cursor.eat(b')') {
            let n = self.signature()?;
            self.pending.push(n);
        }
        let structure = self.maker.make_structure(&self.pending.as_slice()[base..]);
        self.pending.truncate(base);
        structure
    }

    // A complete type that is no maybe. Where none stands, as in no valid text, it is a refusal at the end, and else Unit.
    #[cycle(bare_signature_many_signature)]
    fn bare_signature(&mut self) -> Result<u16, Refusal>
        ensures went { Went M.grew M.limits self.old self.new result }
        ensures builds { Came BuildsBare M.limits M.book self.old result self.new }
    {
        let Some(b) = self.cursor.take() else {
            return Err(Refusal::NoRows);
        };
        match b {
            b'a' => {
                if self.cursor.eat(b'{') {
                    let key = self.signature()?;
                    let value = self.signature()?;
                    let _ = self.cursor.eat(b'}');
                    self.maker.make_dict(key, value)
                } else {
                    let child = self.signature()?;
                    self.maker.make_array(child)
                }
            }
            b'(' => self.many(),
            _ => Ok(code_number(b).unwrap_or(0)),
        }
    }

    // A complete type.
    #[cycle(bare_signature_many_signature)]
    fn signature(&mut self) -> Result<u16, Refusal>
        ensures went { Went M.grew M.limits self.old self.new result }
        ensures builds { Came Builds M.limits M.book self.old result self.new }
    {
        let maybes = skip_maybes(&mut self.cursor);
        let n = self.bare_signature()?;
        wrap(self.maker, n, maybes)
    }

    // All types up to the end of the text, and the number of the whole.
    fn whole(&mut self) -> Result<u16, Refusal>
        requires start { self.old.cursor.at ≡ 0 }
        requires empty { self.old.pending.items ≡ [] }
        ensures same_maker { self.new.maker.ghost_name ≡ self.old.maker.ghost_name }
        ensures grew { Goes M.grew M.limits self.old.maker.now self.new.maker.now }
        ensures builds { BuildsWhole (M.limits self.old.maker.now) self.old.cursor.text.now (M.book self.old.maker.now) result (M.book self.new.maker.now) }
    {
        while !self.cursor.at_end() {
            let n = self.signature()?;
            self.pending.push(n);
        }
        match self.pending.as_slice() {
            [] => Ok(0),
            [n] => Ok(*n),
            all => self.maker.make_structure(all),
        }
    }
}

// All types of a text of any length. This is no part of `build`, so that a short text does not pay for so much stack.
#[inline(never)]
fn build_long<M: Maker>(maker: &mut M, text: &[u8]) -> Result<u16, Refusal>
    requires room { length text.now ≤ 65535 }
    ensures grew { Goes M.grew M.limits maker.old maker.new }
    ensures builds { BuildsWhole (M.limits maker.old) text.now (M.book maker.old) result (M.book maker.new) }
{
    Builder::<M, LONGEST_TEXT>::new(maker, text).whole()
}

// All types of the text, on a stack of pending fields that suits its length, and the number of the whole. A text that no
// signature is as long as is refused.
pub fn build<M: Maker>(maker: &mut M, text: &[u8]) -> Result<u16, Refusal>
    ensures grew { Goes M.grew M.limits maker.old maker.new }
    ensures builds { BuildsWhole (M.limits maker.old) text.now (M.book maker.old) result (M.book maker.new) }
{
    if text.len() <= FEW {
        Builder::<M, FEW>::new(maker, text).whole()
    } else if text.len() <= LONGEST_TEXT {
        build_long(maker, text)
    } else {
        Err(Refusal::TextTooLong)
    }
}
