// Putting bytes and numbers on a page, which takes a part of a longer text.
#![tactic(auto)]

pub mod numbers;
pub mod page;
