// Whole commands judged: by the rules on their fields, by tests that accept them all at once, and by the writer, which gives
// their words. A command is refused with 3, 4, 5, 6 or 11.
#![tactic(auto)]

pub mod fits;
pub mod last;
pub mod writer;
