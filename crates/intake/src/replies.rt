// What is written of a line.
ghost use Rattle.std.specs.Prelude.{Ok, IfOk};
ghost use Rattle.textlines.specs.Lines.{OverLines};
ghost use Rattle.intake.specs.Replies.{Replied};

use crate::filed::Filed;
use crate::filing::{LONGEST_FORM, file};
use sheet::sheet::Sheet;
use std::io;
use textlines::lines::Lines;

// Files the line, and writes what is said of it, with what `after_form` writes behind the form of a filed one.
fn reply<F: Fn(&mut Sheet, &Filed) -> io::Result<()>>(
    rt: &HostRuntime,
    sheet: &mut Sheet,
    line: &[u8],
    form: &mut [u8; LONGEST_FORM],
    after_form: &F,
) -> io::Result<()>
    requires { F.IsAlwaysCallable after_form.now }
    ensures { IfOk result (λ _. Replied (λ p x p'. F.post after_form.now p x (Ok tt) p') sheet.old line.now sheet.new) }
{
    match file(sheet, line, form) {
        Ok(filed) => {
            print!(rt; "{filed}")?;
            rt.write_all(filed.form)?;
            after_form(sheet, &filed)?;
            rt.write_all(b"\n")
        }
        Err(refusal) => println!(rt; "no {refusal}"),
    }
}

// Replies to each line of the text in turn, until one cannot be written.
pub fn reply_to_lines<F: Fn(&mut Sheet, &Filed) -> io::Result<()>>(
    rt: &HostRuntime,
    sheet: &mut Sheet,
    text: &[u8],
    form: &mut [u8; LONGEST_FORM],
    after_form: F,
) -> io::Result<()>
    requires { F.IsAlwaysCallable after_form }
    ensures { IfOk result (λ _. OverLines (Replied (λ p x p'. F.post after_form p x (Ok tt) p')) text.now sheet.old sheet.new) }
{
    for line in Lines::new(text) {
        reply(rt, sheet, line, form, &after_form)?;
    }
    Ok(())
}
