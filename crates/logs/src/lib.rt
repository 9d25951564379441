// A log of states, and what it says of the rules and of the bad states that masks and tables tell: which rules are broken in it, and where the first bad
// state stands. No text is known here.
#![tactic(auto)]

pub mod blame;
pub mod log;
