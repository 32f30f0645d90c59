// Records of a station's log, five bytes each: one of kind, then four of a number, low byte first. What a record's bytes do to the
// ten numbers of a replay's own, and what a midnight does: 18 for a kind byte that is none, 19 for a day that may not begin.
#![tactic(auto)]

pub mod bytes;
pub mod own;

// How many numbers a replay lies in beside its session's: its own, and two marks for each midnight.
pub const LOG_CELLS: usize = 10;

// Kept (design pass 6, C interface): C lends the marks of all midnights, runs and claims by turns, as one array.
pub const MARKS: usize = 2 * MOST_MIDNIGHTS as usize;

// "at most 400 come in all".
pub const MOST_MIDNIGHTS: u32 = 400;
