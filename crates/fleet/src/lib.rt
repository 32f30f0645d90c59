// The fleet report: what the logs of up to 64 stations come to under their lease lines. Each log is replayed and scored by itself;
// the report is a function of logs, lease lines and edition, and keeps nothing.
#![tactic(auto)]

pub mod lengths;
pub mod parts;
pub mod report;
pub mod station;

// Kept (design pass 6, C interface): C lends four numbers a station in one slice.
// Numbers of a station: its log's length, first day, days, and the elements owed a day.
pub const NUMBERS: usize = 4;

// Numbers of the room: served, owed, silent days and station.
pub const ROOM: usize = 4;

// The most stations of a report, and the number that stands for none.
pub const STATIONS: usize = 64;
