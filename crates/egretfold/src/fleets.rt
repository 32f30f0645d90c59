// The fleet report: logs and lease lines of up to 64 stations in one call, which has no state of its own; and one that grows from call to
// call, in eight numbers.
ghost use Rattle.std.specs.Prelude.{length};
ghost use Rattle.refusal.specs.Crossing.{Crosses, Shows};
ghost use Rattle.fleet.specs.Fleet.{report_told};
ghost use Rattle.score.specs.Answers.{lease_line};
ghost use Rattle.growing.specs.Cells.{AddCrosses, SumsGiven, add_month_told, begun_told, join_told, sums_in, told_numbers};

use fleet::report;

// What was served and owed in all, the silent days, and the station with the smallest served part; 3, 11 or 22, then the first
// station's 21, 18 or 19.
#[unsafe(no_mangle)]
pub extern "C" fn egretfold_fleet_report(
    edition: u32,
    logs: &[u8],
    numbers: &[u64],
    room: &mut [u64],
) -> u32
    ensures { Crosses (report_told edition logs.now numbers.now (length room.old)) result room.old room.new }
{
    report::report(edition, logs, numbers, room)
}

// A growing report of an edition, and no station yet; 3.
#[unsafe(no_mangle)]
pub extern "C" fn egretfold_fleet_begin(sums: &mut [u64; growing::SUMS], edition: u32) -> u32
    ensures { Crosses (begun_told edition) result sums.old sums.new }
{
    growing::rooms::begin(sums, edition)
}

// One station more, by its replay and lease line; 3 for another edition, 22 for more than 2^32 stations, then 21, 18 or 19.
#[unsafe(no_mangle)]
pub extern "C" fn egretfold_fleet_add(
    sums: &mut [u64; growing::SUMS],
    log: &[u32; replay::LOG_CELLS],
    marks: &[u64; replay::MARKS],
    own: &[u32; state::OWN_CELLS],
    tallies: &[u64; state::TALLIES],
    first_day: u32,
    days: u32,
    owed: u32,
) -> u32
    requires { SumsGiven sums.old }
    ensures { AddCrosses (lease_line first_day days owed) log.now marks.now own.now tallies.now result sums.old sums.new }
{
    growing::rooms::add(sums, log, marks, own, tallies, first_day, days, owed)
}

// One station more, by its month's numbers; 22 for more than 2^32 stations, then 21 where no month has such numbers.
#[unsafe(no_mangle)]
pub extern "C" fn egretfold_fleet_add_month(
    sums: &mut [u64; growing::SUMS],
    served: u64,
    owed: u64,
    silent: u64,
) -> u32
    requires { SumsGiven sums.old }
    ensures { Crosses (add_month_told (sums_in sums.old) served owed silent) result sums.old sums.new }
{
    growing::rooms::add_month(sums, served, owed, silent)
}

// Another report's stations behind these; 3 for another edition, 22 for more than 2^32 stations.
#[unsafe(no_mangle)]
pub extern "C" fn egretfold_fleet_join(
    sums: &mut [u64; growing::SUMS],
    other: &[u64; growing::SUMS],
) -> u32
    requires { SumsGiven sums.old × SumsGiven other.now }
    ensures { Crosses (join_told (sums_in sums.old) (sums_in other.now)) result sums.old sums.new }
{
    growing::rooms::join(sums, other)
}

// A fleet report's four numbers, and 1 where a station is named, 0 where none owes anything.
#[unsafe(no_mangle)]
pub extern "C" fn egretfold_fleet_tell(
    sums: &[u64; growing::SUMS],
    room: &mut [u64; growing::TOLD],
) -> u32
    ensures { Shows (told_numbers (sums_in sums.now)) result room.new }
{
    growing::tell(sums, room)
}
