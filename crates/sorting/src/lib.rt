// What is read off a table of marks: the list of the marked sets, in order and in lent bytes, and the rules by kind.
#![tactic(auto)]

pub mod kinds;
pub mod which;
pub mod writing;
