// The grammar of D-Bus and GVariant signatures: its definitions and laws, the codes, how long texts may be, what is known of a
// signature besides its parts, and what a call says when it refuses.
#![tactic(auto)]

pub mod codes;
pub mod error;
pub mod figures;
pub mod laws;
pub mod limits;
