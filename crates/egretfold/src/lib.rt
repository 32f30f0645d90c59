// The C boundary: what a host in Rust or C calls, one function for each entry of document 01, over numbers and lent slices
// alone. Each returns 0 or document 01's refusal number and writes its answer into lent room; a refusal touches no room.
// The same functions as C sees them, with their answers and refusals: include/egretfold.h.
#![tactic(auto)]

pub mod addresses;
pub mod commands;
pub mod conditionals;
pub mod elements;
pub mod fleets;
pub mod floats;
pub mod groups;
pub mod logs;
pub mod pairs;
pub mod pictures;
pub mod scores;
pub mod sessions;
pub mod states;
