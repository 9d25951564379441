// The runs that a search holds, and the trace among them.
#![tactic(auto)]

pub mod runs;
pub mod trace;
