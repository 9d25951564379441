// Answers as the one 64-bit number that a C host gets.
#![tactic(auto)]

pub mod answers;
pub mod parts;
