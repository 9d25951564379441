// An order of the rules, and the one core that is left of a judgement by tables when rules are dropped in that order.
#![tactic(auto)]

pub mod one_core;
pub mod order;
