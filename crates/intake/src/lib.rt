// Lines of input, filed on a sheet one after another.
#![tactic(auto)]

pub mod filed;
pub mod filing;
pub mod replies;

pub use textlines::{input, lines};
