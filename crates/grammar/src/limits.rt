// How many bytes texts may have.

// The most bytes of a text to be read.
pub const LONGEST_TEXT: usize = 65_535;

// The most bytes of a printed form.
pub const LONGEST_FORM: usize = 65_535;
