// Examples of what the crates below should do, run as tests.
#![tactic(auto)]

#[cfg(test)]
mod filing;
#[cfg(test)]
mod printed;
#[cfg(test)]
mod reading;
