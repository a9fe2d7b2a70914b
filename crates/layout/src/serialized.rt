// The encoding formats.
ghost use Rattle.std.specs.Prelude.{◌≡◌, Some as Shown};
ghost use Rattle.layout.specs.Format.{name_of};

use std::fmt;

#[derive(Clone, Copy, Drop, PartialEq, Eq, Debug)]
pub enum Format {
    DBus,
    GVariant,
}

impl Format {
    // The format's name.
    pub fn name(self) -> &'static str
        ensures { result.now ≡ name_of self }
    {
        match self {
            Format::DBus => "D-Bus",
            Format::GVariant => "GVariant",
        }
    }
}

// A format is shown as its name.
impl fmt::Display for Format {
    ghost output = { λ format. Shown (name_of format) };

    fn fmt<W: fmt::Write>(&self, f: &mut fmt::Formatter<W>) -> fmt::Result {
        f.write_str(self.name())
    }
}
