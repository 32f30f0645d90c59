// The entries as a status: 0, or a refusal's number.
ghost use Rattle.refusal.specs.Crossing.{Crosses};
ghost use Rattle.score.specs.Answers.{lease_line};
ghost use Rattle.growing.specs.Cells.{AddCrosses, SumsGiven, add_month_told, begun_told, join_told, sums_in};

use score::line::LeaseLine;

// Kept (design pass 1, C interface): each function below hands out a status number.

// No station yet; 3.
pub fn begin(sums: &mut [u64; crate::SUMS], edition: u32) -> u32
    ensures { Crosses (begun_told edition) result sums.old sums.new }
{
    match crate::begin(sums, edition) {
        Ok(()) => 0,
        Err(why) => u32::from(why),
    }
}

// One station more, by its replay and lease line; 3, 22, then 21, 18 or 19.
pub fn add(
    sums: &mut [u64; crate::SUMS],
    log: &[u32; replay::LOG_CELLS],
    marks: &[u64; replay::MARKS],
    own: &[u32; state::OWN_CELLS],
    tallies: &[u64; state::TALLIES],
    first_day: u32,
    days: u32,
    owed: u32,
) -> u32
    requires { SumsGiven sums.old }
    ensures { AddCrosses (lease_line first_day days owed) log.now marks.now own.now tallies.now result sums.old sums.new }
{
    let line = LeaseLine {
        first_day,
        days,
        owed,
    };
    match crate::add(sums, log, marks, own, tallies, line) {
        Ok(()) => 0,
        Err(number) => number,
    }
}

// One station more, by its month's numbers; 22, then 21.
pub fn add_month(sums: &mut [u64; crate::SUMS], served: u64, owed: u64, silent: u64) -> u32
    requires { SumsGiven sums.old }
    ensures { Crosses (add_month_told (sums_in sums.old) served owed silent) result sums.old sums.new }
{
    match crate::add_month(sums, served, owed, silent) {
        Ok(()) => 0,
        Err(why) => u32::from(why),
    }
}

// Another report's stations behind these; 3, then 22.
pub fn join(sums: &mut [u64; crate::SUMS], other: &[u64; crate::SUMS]) -> u32
    requires { SumsGiven sums.old × SumsGiven other.now }
    ensures { Crosses (join_told (sums_in sums.old) (sums_in other.now)) result sums.old sums.new }
{
    match crate::join(sums, other) {
        Ok(()) => 0,
        Err(why) => u32::from(why),
    }
}
