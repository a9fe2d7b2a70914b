// What calls answer, as programs write it.
#![tactic(auto)]

ghost use Rattle.answers.specs.Shown.{answer_shown, found_shown};

use grammar::error::Refusal;
use std::fmt;

// A value, or `no` and the refusal.
#[derive(Clone, Copy, Drop)]
pub struct Answer<T>(pub Result<T, Refusal>);

impl<T: fmt::Display> fmt::Display for Answer<T> {
    ghost output = { λ a. answer_shown T.output a.0 };

    fn fmt<W: fmt::Write>(&self, f: &mut fmt::Formatter<W>) -> fmt::Result {
        match &self.0 {
            Ok(value) => write!(f, "{value}"),
            Err(refusal) => write!(f, "no {refusal}"),
        }
    }
}

// A value, or `none`.
#[derive(Clone, Copy, Drop)]
pub struct Found<T>(pub Option<T>);

impl<T: fmt::Display> fmt::Display for Found<T> {
    ghost output = { λ a. found_shown T.output a.0 };

    fn fmt<W: fmt::Write>(&self, f: &mut fmt::Formatter<W>) -> fmt::Result {
        match &self.0 {
            Some(value) => write!(f, "{value}"),
            None => write!(f, "none"),
        }
    }
}
