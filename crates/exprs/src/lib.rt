// Expressions over the bits of one second and the next, written operator first.
#![tactic(auto)]

pub(crate) mod evaluation;
pub mod reading;
pub mod token;
pub mod words;
