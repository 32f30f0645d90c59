// What the programs of worked values share: how a group of checks is counted and printed, layouts, and document 01's whole
// stream.
#![tactic(auto)]

pub mod streams;
pub mod tally;
pub mod windows;
