// A rule set as a number, 64 of them at once, and one core as it is found by an order of the rules.
#![tactic(auto)]

pub mod one_core;
pub mod ruleset;
pub mod words;
