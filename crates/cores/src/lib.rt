// All cores, all cuts and MUST of a judgement by tables.
#![tactic(auto)]

pub mod seeds;
