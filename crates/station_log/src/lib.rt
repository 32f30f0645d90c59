// A station's log, replayed over all its midnights by one session. A log is a row of records: kind 1 is a command word, kind 2
// midnight and the number of the day that begins. A byte is refused with 18 or 19, which stop the replay for good; a refused
// word stops its session alone.
#![tactic(auto)]

pub mod stream;
