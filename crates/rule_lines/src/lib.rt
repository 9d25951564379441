// The rule lines of a model text: the name, the names of earlier rules, the expression.
#![tactic(auto)]

pub mod names;
