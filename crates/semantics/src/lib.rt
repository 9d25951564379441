// What a model and a rule set mean, as tables: the masks of the pairs of states and the marks of the states, filled from the text.
#![tactic(auto)]

pub mod filled;
mod masks;
pub mod model_text;
mod starts;
pub mod tables;
pub mod values;
mod written_rules;
