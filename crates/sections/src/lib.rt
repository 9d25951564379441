// The sections of a report, put on a page: the verdicts on the full set, the kinds of rules, the lists.
#![tactic(auto)]

pub mod kinds;
pub mod lists;
mod names;
pub mod read_text;
mod rows;
mod rules;
pub mod verdict;
