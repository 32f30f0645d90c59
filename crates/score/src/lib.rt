// The monthly score of a station: a lease line judged (21), and what each day of it and the month were served, by the replay of
// the station's log (18 or 19 where the log stopped it). A score is a function of the two and keeps nothing.
#![tactic(auto)]

pub mod day;
pub mod line;
pub mod month;

// The most days of a lease line, and so the length of the rooms of a month.
pub const DAYS: usize = 31;
