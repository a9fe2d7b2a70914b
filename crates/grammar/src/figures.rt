// What is known of a signature besides its parts.
ghost use Rattle.std.specs.Prelude.{Some as Seen};
ghost use Rattle.grammar.specs.Shown.{figures_shown};

use std::fmt;

#[derive(Clone, Copy, Drop, PartialEq, Eq, Debug)]
pub struct Figures {
    // The length of the printed form.
    pub length: u16,
    // How deep structures are nested, and how deep arrays and dictionaries.
    pub structures: u16,
    pub arrays: u16,
    // The alignment in each format; 0 where there is none.
    pub dbus: u8,
    pub gvariant: u8,
    // Whether each value has the same size.
    pub fixed: bool,
    // Whether the signature is or holds a maybe.
    pub maybe: bool,
}

impl Figures {
    // The figures of nothing.
    pub const NONE: Figures = Figures {
        length: 0,
        structures: 0,
        arrays: 0,
        dbus: 0,
        gvariant: 0,
        fixed: false,
        maybe: false,
    };
}

// The figures are shown in a row, each behind its name.
impl fmt::Display for Figures {
    ghost output = { λ x. Seen (figures_shown x) };

    fn fmt<W: fmt::Write>(&self, f: &mut fmt::Formatter<W>) -> fmt::Result {
        let Figures {
            length,
            structures,
            arrays,
            dbus,
            gvariant,
            fixed,
            maybe,
        } = *self;
        write!(
            f,
            "length {length}, alignment {dbus} {gvariant}, fixed {fixed}, maybe {maybe}, depths {structures} {arrays}"
        )
    }
}
