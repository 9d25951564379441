// The part: the calls for a C host, which gets each answer as one number, and the demands on them.
#![tactic(auto)]

pub mod host;
pub mod together;
