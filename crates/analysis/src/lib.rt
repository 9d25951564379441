// What one search or one pass answers of a model text that has been read: the trace of a set, its reached states, one core by an order of its rules, and
// what a log says of them.
#![tactic(auto)]

pub mod blame;
pub mod one_core;
pub mod reached;
pub mod trace;
