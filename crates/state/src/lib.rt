// Where a session lies: cells that the caller lends, a party's own numbers, its tallies and the shared settings; and how a
// word or a command's setting is stored there.
#![tactic(auto)]

pub mod edition;
pub mod own;
pub mod settings;

// Kept (design passes 5 and 6, C interface, include/egretfold.h): a caller in C lends the three arrays one by one, as plain numbers that it
// may keep elsewhere, so every entry gets three references, and what the numbers mean is said by the places in `own` and `settings`.
// How many numbers a session lies in: a party's own, its tallies (runs and claimed elements) and the shared settings.
pub const OWN_CELLS: usize = 33;

pub const TALLIES: usize = 2;

pub const SHARED_CELLS: usize = 101;
