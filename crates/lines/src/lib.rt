// One line of a model text, read by itself: what it says and how many bytes it has, or the number, 1, 2 or 5 to 8, that refuses it. A rule line is read in
// `rule_lines`.
#![tactic(auto)]

pub mod classes;
pub mod counts;
pub mod expressions;
pub mod line;
