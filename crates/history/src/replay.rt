// A sheet is opened, calls are made on it, and two numbers are printed: what holds of every such history.
ghost use Rattle.std.specs.Prelude.{◌≡◌, length};
ghost use Rattle.grammar.specs.Refusals.{outcome};
ghost use Rattle.printing.specs.Forms.{OnRefusal};
ghost use Rattle.history.specs.Calls.{calls_of, Recorded};
ghost use Rattle.history.specs.Account.{Accounted};
ghost use Rattle.history.specs.History.{answers_of, book_after, Filed, Written};

use crate::account::{Account, account_of};
use crate::calls::{Call, make_all};
use grammar::error::Refusal;
use sheet::row::{FieldRow, TypeRow};
use sheet::sheet::Sheet;
use writers::writer::Writer;

// The sheet after the calls, and the accounts of both numbers.
#[derive(Drop)]
pub struct History<'a> {
    pub sheet: Sheet<'a>,
    pub first: Result<Account, Refusal>,
    pub second: Result<Account, Refusal>,
}

// Opens a sheet on the lent rows, makes the calls on it, each on what those before it left, and prints `m` and `n` into the
// writers, with the account of both. The answers of the calls are kept as far as there are places for them.
pub fn replay<'a, V: Writer, W: Writer>(
    types: &'a mut [TypeRow],
    fields: &'a mut [FieldRow],
    calls: &[Call],
    answers: &mut [Result<u16, Refusal>],
    m: u16,
    v: &mut V,
    n: u16,
    w: &mut W,
) -> History<'a>
    ensures answers { Recorded (answers_of (length types.old) (length fields.old) (calls_of calls.now)) answers.old answers.new }
    ensures filed { Filed (length types.old) (length fields.old) (calls_of calls.now) result.sheet }
    ensures first { Accounted (book_after (length types.old) (length fields.old) (calls_of calls.now)) m (outcome result.first) (V.state v.old) (V.state v.new) }
    ensures second { Accounted (book_after (length types.old) (length fields.old) (calls_of calls.now)) n (outcome result.second) (W.state w.old) (W.state w.new) }
    ensures written { Written (book_after (length types.old) (length fields.old) (calls_of calls.now)) m n (V.state v.old) (V.state v.new) (W.state w.old) (W.state w.new) }
    ensures still { (OnRefusal (outcome result.first) (v.new ≡ v.old)) × (OnRefusal (outcome result.second) (w.new ≡ w.old)) }
{
    let mut sheet = Sheet::open(types, fields);
    make_all(&mut sheet, calls, answers);
    let first = account_of(&mut sheet, m, v);
    let second = account_of(&mut sheet, n, w);
    History {
        sheet,
        first,
        second,
    }
}
