// A station's log over numbers: what a piece and a replay's reports are answered, as a status with its numbers in a room that the
// caller lends. A byte that isn't taken gets 18 or 19. A replay's five arrays are as its entries left them; the last three are its
// session's.
#![tactic(auto)]

ghost use Rattle.std.specs.Prelude.{[], ◌∷◌};
ghost use Rattle.state.specs.State.{new_session};
ghost use Rattle.station_log.specs.Asked.{Begins, ByteLeft};
ghost use Rattle.station_log.specs.Feed.{replay_of};
ghost use Rattle.replay.specs.Report.{part_of};
ghost use Rattle.replay.specs.Cells.{ReplayGiven, replay_in, viewed};
ghost use Rattle.days.specs.Reported.{midnights_in, now_in, standing_of};
ghost use Rattle.refusal.specs.Crossing.{Shows};
ghost use Rattle.setting_rooms.specs.Rooms.{tally_numbers};
ghost use Rattle.log_rooms.specs.Rooms.{FeedCrosses, standing_numbers};

use days::report;
use station_log::stream;

// Kept (design pass 1, C interface): each function below hands out a status number.
// Lengths of rooms: where a replay stands, in seven numbers; runs and claims.
pub const STANDING_NUMBERS: usize = 7;

pub const PART_NUMBERS: usize = 2;

// A replay that has read nothing, over a new session of an edition; 3.
pub fn begin(
    log: &mut [u32; replay::LOG_CELLS],
    marks: &mut [u64; replay::MARKS],
    own: &mut [u32; state::OWN_CELLS],
    tallies: &mut [u64; state::TALLIES],
    shared: &mut [u32; state::SHARED_CELLS],
    edition: u32,
) -> u32
    ensures { Begins edition result log.old marks.old own.old tallies.old shared.old log.new marks.new own.new tallies.new shared.new }
{
    match stream::begin(log, marks, own, tallies, shared, edition) {
        Ok(()) => 0,
        Err(why) => u32::from(why),
    }
}

// One byte: 0 where it was taken, else 18 or 19.
pub fn take_byte(
    log: &mut [u32; replay::LOG_CELLS],
    marks: &mut [u64; replay::MARKS],
    own: &mut [u32; state::OWN_CELLS],
    tallies: &mut [u64; state::TALLIES],
    shared: &mut [u32; state::SHARED_CELLS],
    byte: u8,
) -> u32
    requires { ReplayGiven log.old marks.old own.old tallies.old shared.old }
    ensures { ByteLeft (replay_of (replay_in log.old marks.old own.old tallies.old shared.old) (byte ∷ [])) result log.new marks.new own.new tallies.new shared.new }
{
    match stream::take_byte(log, marks, own, tallies, shared, byte) {
        Ok(()) => 0,
        Err(why) => u32::from(why),
    }
}

// A piece of bytes: how many were taken, and 18 or 19 for the first that wasn't, if any.
pub fn feed(
    log: &mut [u32; replay::LOG_CELLS],
    marks: &mut [u64; replay::MARKS],
    own: &mut [u32; state::OWN_CELLS],
    tallies: &mut [u64; state::TALLIES],
    shared: &mut [u32; state::SHARED_CELLS],
    bytes: &[u8],
    taken: &mut [u64; 1],
) -> u32
    requires { ReplayGiven log.old marks.old own.old tallies.old shared.old }
    ensures { FeedCrosses (replay_of (replay_in log.old marks.old own.old tallies.old shared.old) bytes.now) result log.new marks.new own.new tallies.new shared.new taken.new }
{
    let piece = stream::feed(log, marks, own, tallies, shared, bytes);
    *taken = [piece.taken.0];
    match piece.refusal {
        None => 0,
        Some(why) => u32::from(why),
    }
}

// Where a replay stands: the number that stopped it; the first refused word's number and the midnights before it; the
// midnights so far, the first and the last day; how many bytes of an unfinished record stand. What isn't there is 0.
pub fn standing(log: &[u32; replay::LOG_CELLS], status: &mut [u32; STANDING_NUMBERS]) -> u32
    ensures { Shows (standing_numbers (standing_of (viewed log.now [] (new_session 1)))) result status.new }
{
    let standing = report::standing_of(log);
    *status = [
        standing.stopped_by,
        standing.refused,
        standing.refused_after,
        standing.midnights,
        standing.first_day,
        standing.last_day,
        standing.unfinished,
    ];
    0
}

// Runs and claimed elements of a part: 0 is what ended before the first midnight, k the k-th day; none past the last.
pub fn part(
    log: &[u32; replay::LOG_CELLS],
    marks: &[u64; replay::MARKS],
    tallies: &[u64; state::TALLIES],
    part: u32,
    counts: &mut [u64; PART_NUMBERS],
) -> u32
    ensures { Shows (tally_numbers (part_of marks.now (midnights_in log.now) (now_in tallies.now) part)) result counts.new }
{
    let ended = report::part(log, marks, tallies, part);
    *counts = [ended.runs, ended.claims];
    0
}
