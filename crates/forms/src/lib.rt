// The bytes of the printed forms of signatures, by place, and where the forms stand in them.
#![tactic(auto)]

pub mod bytes;
pub mod spans;
