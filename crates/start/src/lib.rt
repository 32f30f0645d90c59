// What a start asks of the settings (7, 8, 9), what it claims, and its count in the tallies.
#![tactic(auto)]

pub mod claims;
pub mod ready;
