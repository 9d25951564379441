// Parts of a slice that is handed on, and whether two slices hold the same bytes.
#![tactic(auto)]

pub mod parts;
