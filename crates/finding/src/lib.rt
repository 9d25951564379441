// All cores and all cuts of a model text that has been read, as lists and by the kinds of its rules, and MUST by one judgement for each rule. The arrays for
// the tables of sets lie in `find`, in two sizes; those for the masks lie in `semantics::filled`.
#![tactic(auto)]

mod find;
pub mod kinds;
pub mod lists;
pub mod must;
