// The report of a text, page by page.
#![tactic(auto)]

pub mod report;
