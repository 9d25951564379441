// The call that blames rules of a model text from a station's log.
#![tactic(auto)]

pub mod blame;
