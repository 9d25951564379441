// The body of a model text, the lines behind `init`: the property lines and then the rule lines, one after the other.
#![tactic(auto)]

mod parts;
pub mod progress;
pub mod properties;
pub mod rules;
