// Printed forms: their bytes by place, offered to a writer, put into a buffer, and compared with a text.
#![tactic(auto)]

pub mod bytes;
pub mod comparison;
pub mod printing;
