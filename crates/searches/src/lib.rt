// The breadth-first search of a transition system: the reached states with a run to each, and the trace.
#![tactic(auto)]

pub mod breadth_first;
pub mod runs;
pub mod trace;
