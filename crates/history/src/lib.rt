// A sheet's whole history in one call: opening, any calls, and two numbers printed.
#![tactic(auto)]

pub mod account;
pub mod calls;
pub mod replay;
