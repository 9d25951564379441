// Transition systems over states that are numbers: what is known of one beside the masks, off which the start states and the steps of a rule set are
// read. No text is known here. The searches that go over them are in `searches` and `verdicts`.
#![tactic(auto)]

pub mod systems;
pub mod tables;
