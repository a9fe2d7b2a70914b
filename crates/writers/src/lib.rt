// Writers, which take bytes one after another or decline them.
#![tactic(auto)]

pub mod laws;
pub mod writer;
