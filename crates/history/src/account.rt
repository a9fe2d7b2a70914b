// The account of a number: its printed form, offered to a writer, and its figures.
ghost use Rattle.std.specs.Prelude.{◌≡◌};
ghost use Rattle.grammar.specs.Refusals.{outcome};
ghost use Rattle.sheet.specs.Seen.{book_in};
ghost use Rattle.printing.specs.Forms.{OnRefusal};
ghost use Rattle.history.specs.Account.{all_figures, Accounted};

use grammar::error::Refusal;
use grammar::figures::Figures;
use printing::printing::{Printed, write_as_string};
use sheet::serialized::Format;
use sheet::sheet::Sheet;
use writers::writer::Writer;

#[derive(Clone, Copy, Drop)]
pub struct Account {
    pub printed: Printed,
    pub figures: Figures,
}

// All figures of `n`, asked one after another; an alignment that there is not is written 0.
#[tactic(auto, unfolding(book::specs::Questions::figure_of))]
pub fn figures_of(sheet: &mut Sheet, n: u16) -> Result<Figures, Refusal>
    ensures same { sheet.new ≡ sheet.old }
    ensures answer { outcome result ≡ all_figures (book_in sheet.old) n }
{
    let length = sheet.string_len(n)?;
    let (structures, arrays) = sheet.depths(n)?;
    let dbus = sheet.alignment(n, Format::DBus).unwrap_or(0);
    let gvariant = sheet.alignment(n, Format::GVariant).unwrap_or(0);
    let fixed = sheet.is_fixed_sized(n)?;
    let maybe = sheet.contains_maybe(n)?;
    Ok(Figures {
        length,
        structures,
        arrays,
        dbus,
        gvariant,
        fixed,
        maybe,
    })
}

// Offers the printed form of `n` to the writer, and asks for all its figures.
#[tactic(auto, unfolding(book::specs::Questions::figure_of, crate::specs::Account::account_of, printing::specs::Forms::written_of))]
pub fn account_of<W: Writer>(sheet: &mut Sheet, n: u16, w: &mut W) -> Result<Account, Refusal>
    ensures same { sheet.new ≡ sheet.old }
    ensures accounted { Accounted (book_in sheet.old) n (outcome result) (W.state w.old) (W.state w.new) }
    ensures still { OnRefusal (outcome result) (w.new ≡ w.old) }
{
    let figures = figures_of(sheet, n)?;
    let printed = write_as_string(sheet, n, w)?;
    Ok(Account { printed, figures })
}
