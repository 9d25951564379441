// The model text: its lines in order, the refusals 1 to 9, and where each part of an accepted model stands.
#![tactic(auto)]

pub mod changed;
pub mod model;
