// What is said of a line that is filed.
ghost use Rattle.std.specs.Prelude.{Some as Shown};
ghost use Rattle.intake.specs.Reply.{alignment_shown, before_form};

use grammar::figures::Figures;
use std::fmt;

// An alignment, where 0 stands for none.
#[derive(Clone, Copy, Drop)]
pub struct Alignment(pub u8);

impl fmt::Display for Alignment {
    ghost output = { λ a. Shown (alignment_shown a.0) };

    fn fmt<W: fmt::Write>(&self, f: &mut fmt::Formatter<W>) -> fmt::Result {
        let bytes = self.0;
        if bytes == 0 {
            write!(f, "-")
        } else {
            write!(f, "{bytes}")
        }
    }
}

// A number, its figures and its printed form.
#[derive(Clone, Copy, Drop)]
pub struct Filed<'a> {
    pub number: u16,
    pub figures: Figures,
    pub form: &'a [u8],
}

// All but the form is shown, with a space at the end.
impl<'a> fmt::Display for Filed<'a> {
    ghost output = { λ x. Shown (before_form x.number x.figures) };

    fn fmt<W: fmt::Write>(&self, f: &mut fmt::Formatter<W>) -> fmt::Result {
        let number = self.number;
        let length = self.figures.length;
        let dbus = Alignment(self.figures.dbus);
        let gvariant = self.figures.gvariant;
        let fixed = if self.figures.fixed { "y" } else { "n" };
        write!(f, "ok {number} {length} {dbus} {gvariant} {fixed} ")
    }
}
