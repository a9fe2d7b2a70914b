// Lines of input: bytes that end with byte 10; the last line may lack it.
#![tactic(auto)]

pub mod input;
pub mod lines;
