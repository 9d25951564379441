// The quick answer: whether a set of rules suffices, by a list of cores and a list of cuts, which are all that is handed over.
#![tactic(auto)]

pub mod answer;
mod search;
pub mod suffices;
