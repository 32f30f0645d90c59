// The days of a replayed log: what its replay reports. Nothing here is refused.
#![tactic(auto)]

pub mod report;
