// The calls on a model text: judge a set of rules, give its reached states, list the cores, list the cuts, give MUST, MAY or the irrelevant rules.
// Each reads the text first, and answers a refusal or what was asked for.
#![tactic(auto)]

pub mod judging;
pub mod kinds;
pub mod listing;
pub mod reaching;
pub mod reading;
pub mod verdict;
