// For what reason a call is refused, and at which line of the text.
#![tactic(auto)]

pub mod refusal;
