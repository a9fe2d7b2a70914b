// Reads signatures, and says where a text goes wrong.
#![tactic(auto)]

pub mod cursor;
pub mod reading;

pub use reading::{parse, validate};
