// Sessions: words of a stream are read one by one or in pieces of any length, and change the settings that later starts
// meet. A session lies in cells that the caller lends: a party's own numbers, its tallies, and the shared settings.
// A word is refused with 1 to 9, 17, or 20 where the cells are a party's of a pair; all but 1 stop the session for good and drop
// the open command.
#![tactic(auto)]

pub mod stream;
