// Why a text is no signature, and why a call says no.
ghost use Rattle.std.specs.Prelude.{◌≡◌, [], ◌∷◌, Some as Shown};
ghost use Rattle.grammar.specs.declared.error.Refusal.TheVariants.{Invalid as Faulty};
ghost use Rattle.grammar.specs.Refusals.{letter_of, number_of, shown_of};

use std::error::Error;
use std::fmt;

// Why a text goes wrong at its place.
#[derive(Clone, Copy, Drop, PartialEq, Eq, Debug)]
pub enum Cause {
    // The text ends where a byte is still due.
    Ended,
    // A structure, array or dictionary is nested too deep.
    TooDeep,
    // The byte cannot stand there.
    Unexpected,
}

// Where a text goes wrong, counted in bytes from 0, and why.
#[derive(Clone, Copy, Drop, PartialEq, Eq, Debug)]
pub struct Fault {
    pub cause: Cause,
    pub place: usize,
}

// The ways a call says no, in the order of their numbers from 1.
#[derive(Clone, Copy, Drop, PartialEq, Eq, Debug)]
pub enum Refusal {
    // A text to be read has too many bytes.
    TextTooLong,
    // A text to be read is not valid.
    Invalid(Fault),
    // The number at this position is not known.
    Unknown(usize),
    // The number at this position is Unit's, which is no part.
    UnitPart(usize),
    // A structure of no fields.
    NoFields,
    // The signature's kind has no such part or figure.
    WrongKind,
    // The printed form has too many bytes.
    FormTooLong,
    // More rows are needed than are unused.
    NoRows,
    // The buffer is shorter than the form to be printed.
    ShortBuffer,
}

impl From<Fault> for Refusal {
    ghost from_gives = { λ fault r. r ≡ Faulty fault };

    fn from(fault: Fault) -> Refusal {
        Refusal::Invalid(fault)
    }
}

impl Cause {
    // The cause's letter.
    pub fn letter(self) -> u8
        ensures { result ≡ letter_of self }
    {
        match self {
            Cause::Ended => b'E',
            Cause::TooDeep => b'D',
            Cause::Unexpected => b'U',
        }
    }
}

impl Refusal {
    // The refusal's number.
    pub fn number(self) -> u8
        ensures { result ≡ number_of self }
    {
        match self {
            Refusal::TextTooLong => 1,
            Refusal::Invalid(_) => 2,
            Refusal::Unknown(_) => 3,
            Refusal::UnitPart(_) => 4,
            Refusal::NoFields => 5,
            Refusal::WrongKind => 6,
            Refusal::FormTooLong => 7,
            Refusal::NoRows => 8,
            Refusal::ShortBuffer => 9,
        }
    }
}

// A cause is shown as its letter.
impl fmt::Display for Cause {
    ghost output = { λ c. Shown (letter_of c ∷ []) };

    fn fmt<W: fmt::Write>(&self, f: &mut fmt::Formatter<W>) -> fmt::Result {
        f.write_char(char::from(self.letter()))
    }
}

// A refusal is shown as its number and the values that it gives, one space between.
impl fmt::Display for Refusal {
    ghost output = { λ r. Shown (shown_of r) };

    fn fmt<W: fmt::Write>(&self, f: &mut fmt::Formatter<W>) -> fmt::Result {
        let number = self.number();
        match self {
            Refusal::Invalid(fault) => {
                let cause = fault.cause;
                let place = fault.place;
                write!(f, "{number} {cause} {place}")
            }
            Refusal::Unknown(position) | Refusal::UnitPart(position) => {
                write!(f, "{number} {position}")
            }
            _ => write!(f, "{number}"),
        }
    }
}

impl Error for Refusal {}
