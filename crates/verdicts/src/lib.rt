// The verdict on a set, with no trace: a search in any order.
#![tactic(auto)]

pub mod verdict;
