// Tables of marks: one bit for each set of rules.
#![tactic(auto)]

pub mod table;
