// A fleet's report that grows: eight numbers, to which one station after another is added, up to 2^32 of them, so that no sum passes 64
// bits: 31 days of 100,000,000 elements, 2^32 times, are less than 2^64. The numbers are: the edition; how many stations were added; what
// is served and owed in all; the silent days; and the station with the smallest served part, with what it is served and owes. Where that
// owes 0 there is none. A refusal touches nothing.
#![tactic(auto)]

ghost use Rattle.std.specs.Prelude.{◌≡◌, Err, length};
ghost use Rattle.refusal.specs.Crossing.{Crosses, Shows};
ghost use Rattle.session.specs.Answers.{begun_status};
ghost use Rattle.state.specs.Start.{is_edition};
ghost use Rattle.score.specs.Lease.{lease_of};
ghost use Rattle.judges.specs.Judged.{Judges};
ghost use Rattle.fleet.specs.Join.{joined};
ghost use Rattle.growing.specs.Sums.{is_month, is_placed, with_month};
ghost use Rattle.growing.specs.Cells.{AddCrosses, JoinAsked, PutAsked, SumsGiven, add_month_told, begun_told, join_told, number_in, sums_cells, sums_in, told_numbers, totals_in};

pub mod rooms;

use fleet::parts::{Fleet, Part};
use fleet::{parts, station};
use refusal::Refusal;
use score::line::LeaseLine;
use state::{edition, own};

// Kept (design pass 6, C interface): C lends a report's eight numbers as one array.
pub const SUMS: usize = 8;

// Numbers that a report tells: a fleet report's four, and whether a station is named.
pub const TOLD: usize = 5;

// How many stations have a number of 32 bits.
pub const MOST_STATIONS: u64 = 4294967296;

// What a month owes at most: 31 days of 100,000,000 elements.
const MOST_MONTH: u64 = 3100000000;

// Silent days of a month.
const MOST_DAYS: u64 = 31;

// What the stations so far come to.
fn totals_in(sums: &[u64; SUMS]) -> Fleet
    ensures { result ≡ totals_in sums.now }
{
    Fleet {
        served: sums[2],
        owed: sums[3],
        silent: sums[4],
        part: Part {
            station: sums[5],
            served: sums[6],
            owed: sums[7],
        },
    }
}

// Stores them.
fn put(sums: &mut [u64; SUMS], edition: u64, count: u64, fleet: Fleet)
    ensures { sums.new ≡ sums_cells (record { edition = edition; count = count; fleet = fleet }) }
{
    *sums = [
        edition,
        count,
        fleet.served,
        fleet.owed,
        fleet.silent,
        fleet.part.station,
        fleet.part.served,
        fleet.part.owed,
    ];
}

// No station yet; 3 for a number that is no edition's.
pub fn begin(sums: &mut [u64; SUMS], edition: u32) -> Result<(), Refusal>
    ensures { Crosses (begun_told edition) (begun_status result) sums.old sums.new }
{
    if !edition::is_known(edition) {
        return Err(Refusal::Malformed);
    }
    put(sums, u64::from(edition), 0, parts::none());
    Ok(())
}

// One station more, by its month's numbers.
fn put_month(sums: &mut [u64; SUMS], served: u64, owed: u64, silent: u64)
    requires { PutAsked sums.old served owed silent }
    ensures { sums.new ≡ sums_cells (with_month (sums_in sums.old) served owed silent) }
{
    let edition = sums[0];
    let count = sums[1];
    let fleet = parts::add(totals_in(sums), count, served, owed, silent);
    put(sums, edition, count + 1, fleet);
}

// Adds the station of a replay, under its lease line: 3 where the replay's session isn't of the report's edition, 22 for one more than
// 2^32, then 21, 18 or 19. No error is 0, which would look added.
pub fn add(
    sums: &mut [u64; SUMS],
    log: &[u32; replay::LOG_CELLS],
    marks: &[u64; replay::MARKS],
    own: &[u32; state::OWN_CELLS],
    tallies: &[u64; state::TALLIES],
    line: LeaseLine,
) -> Result<(), u32>
    requires { SumsGiven sums.old }
    ensures { AddCrosses (lease_of line) log.now marks.now own.now tallies.now (number_in result) sums.old sums.new × (result ≡ Err 0 → ⊥) }
{
    if sums[0] != u64::from(own[own::EDITION]) {
        return Err(u32::from(Refusal::Malformed));
    }
    if sums[1] >= MOST_STATIONS {
        return Err(u32::from(Refusal::TooManyLogs));
    }
    let month = station::summed(log, marks, tallies, line)?;
    put_month(sums, month.served, month.owed, month.silent);
    Ok(())
}

// Whether a month may have these numbers: it owes at most 31 days of 100,000,000 elements, is served no more than it owes, and has no
// more silent days than days.
fn is_month(served: u64, owed: u64, silent: u64) -> bool
    ensures { result ≡ is_month served owed silent }
{
    owed <= MOST_MONTH && (served <= owed && silent <= MOST_DAYS)
}

// Adds a station by its month's numbers: 22 for one more than 2^32, then 21 where no month has such numbers.
pub fn add_month(sums: &mut [u64; SUMS], served: u64, owed: u64, silent: u64) -> Result<(), Refusal>
    requires { SumsGiven sums.old }
    ensures { Crosses (add_month_told (sums_in sums.old) served owed silent) (begun_status result) sums.old sums.new }
{
    let count = sums[1];
    if count >= MOST_STATIONS {
        return Err(Refusal::TooManyLogs);
    }
    if !is_month(served, owed, silent) {
        return Err(Refusal::LeaseLine);
    }
    put_month(sums, served, owed, silent);
    Ok(())
}

// Two fleets, the second of which is numbered on from the `count` stations of the first. The second's smallest part is a part like
// another: it has to be smaller to be named.
fn join_fleets(first: Fleet, count: u64, second: Fleet) -> Fleet
    requires { JoinAsked first count second }
    ensures { result ≡ joined count first second }
{
    Fleet {
        served: first.served + second.served,
        owed: first.owed + second.owed,
        silent: first.silent + second.silent,
        part: parts::next_part(
            first.part,
            count + second.part.station,
            second.part.served,
            second.part.owed,
        ),
    }
}

// Puts another report's stations behind these: 3 where it is of another edition, 22 where they are more than 2^32 together.
pub fn join(sums: &mut [u64; SUMS], other: &[u64; SUMS]) -> Result<(), Refusal>
    requires { SumsGiven sums.old × SumsGiven other.now }
    ensures { Crosses (join_told (sums_in sums.old) (sums_in other.now)) (begun_status result) sums.old sums.new }
{
    let edition = sums[0];
    if edition != other[0] {
        return Err(Refusal::Malformed);
    }
    let before = sums[1];
    let count = before + other[1];
    if count > MOST_STATIONS {
        return Err(Refusal::TooManyLogs);
    }
    let fleet = join_fleets(totals_in(sums), before, totals_in(other));
    put(sums, edition, count, fleet);
    Ok(())
}

// Kept (design pass 1, C interface): the status of an answer that is never refused.
// Tells a fleet report's four numbers, and 1 where a station is named: 64 and 0 where none owes anything.
pub fn tell(sums: &[u64; SUMS], room: &mut [u64; TOLD]) -> u32
    ensures { Shows (told_numbers (sums_in sums.now)) result room.new }
{
    if sums[7] == 0 {
        *room = [sums[2], sums[3], sums[4], parts::NONE, 0];
        return 0;
    }
    *room = [sums[2], sums[3], sums[4], sums[5], 1];
    0
}

// Whether a number is an edition's.
fn is_edition(number: u64) -> bool
    ensures { result ≡ is_edition number }
{
    number == u64::from(edition::BY_OUTPUT) || number == u64::from(edition::BY_CHANNEL)
}

// Whether a station is one of so many, or stands for none where it owes nothing.
fn is_placed(count: u64, station: u64, owed: u64) -> bool
    ensures { result ≡ is_placed count station owed }
{
    if owed == 0 {
        station == parts::NONE
    } else {
        station < count
    }
}

// Whether numbers that were kept elsewhere are such as the entries take.
pub fn is_kept(sums: &[u64; SUMS]) -> bool
    requires { length sums.now ≡ 8 }
    ensures { Judges result (SumsGiven sums.now) }
{
    let count = sums[1];
    if count > MOST_STATIONS {
        return false;
    }
    let known = is_edition(sums[0]);
    let placed = is_placed(count, sums[5], sums[7]);
    let served = sums[2] <= sums[3] && sums[6] <= sums[7];
    let owed = sums[3] <= count * MOST_MONTH && sums[7] <= MOST_MONTH;
    let silent = sums[4] <= count * MOST_DAYS;
    known && placed && served && owed && silent
}
