// A sheet of signatures: equal shapes have one number, on rows that the caller lends.
#![tactic(auto)]

mod back;
pub mod child;
pub mod comparison;
mod entering;
pub mod fields;
pub mod figures;
mod lay;
pub mod makers;
pub mod reading;
pub mod row;
pub mod serialized;
pub mod sheet;
