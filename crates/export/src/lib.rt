// Reading for C: whether a text is a signature, or else why and where it is none.
#![tactic(auto)]

ghost use Rattle.export.specs.Replies.{Replied};

use reader::validate;

pub mod reply;

use reply::Reply;

// Whether `text` is a signature, or else why and where it is none.
#[unsafe(no_mangle)]
pub extern "C" fn signature_validate(text: &[u8]) -> Reply
    ensures { Replied text.now result }
{
    Reply::from(validate(text))
}
