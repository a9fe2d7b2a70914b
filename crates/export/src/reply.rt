// What a C caller is told of a text.
ghost use Rattle.export.specs.Replies.{reply_of};
ghost use Rattle.std.specs.Prelude.{◌≡◌};

use grammar::error::Refusal;

// The number of the refusal, or 0 for a signature; the letter of the cause and the place, or 0 where there are none.
// Plain numbers, since the struct is laid out for C.
#[repr(C)]
#[derive(Clone, Copy)]
pub struct Reply {
    pub refusal: u8,
    pub cause: u8,
    pub place: usize,
}

impl From<Result<(), Refusal>> for Reply {
    ghost from_gives = { λ outcome r. r ≡ reply_of outcome };

    fn from(outcome: Result<(), Refusal>) -> Reply {
        let (refusal, cause, place) = match outcome {
            Ok(()) => (0, 0, 0),
            Err(Refusal::Invalid(fault)) => (2, fault.cause.letter(), fault.place),
            Err(refusal) => (refusal.number(), 0, 0),
        };
        Reply {
            refusal,
            cause,
            place,
        }
    }
}
