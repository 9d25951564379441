// The call that finds one core of a model text, in an order of preference.
#![tactic(auto)]

pub mod one_core;
