// The codes of the basic types, in the order of their numbers, which begin with 1.

pub const CODES: [u8; 14] = *b"ybnqiuxtdsgovh";
