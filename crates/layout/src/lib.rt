// How a book of signatures stands on rows: the rows, the figures that they hold, and the formats that those are for.
#![tactic(auto)]

pub mod figures;
pub mod row;
pub mod serialized;
