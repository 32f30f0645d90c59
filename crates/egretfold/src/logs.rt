// A station's log: bytes in pieces of any length, and what their replay reports. A replay's five arrays are as
// `egretfold_log_begin`, `egretfold_log_byte` and `egretfold_log_feed` left them; the last three are its session's.
ghost use Rattle.std.specs.Prelude.{◌≡◌, [], ◌∷◌, length};
ghost use Rattle.state.specs.State.{new_session};
ghost use Rattle.station_log.specs.Asked.{Begins, ByteLeft};
ghost use Rattle.station_log.specs.Feed.{replay_of};
ghost use Rattle.replay.specs.Places.{log_length};
ghost use Rattle.replay.specs.Report.{part_of};
ghost use Rattle.replay.specs.Cells.{ReplayGiven, replay_in, viewed};
ghost use Rattle.days.specs.Reported.{midnights_in, now_in, standing_of};
ghost use Rattle.refusal.specs.Crossing.{Shows};
ghost use Rattle.setting_rooms.specs.Rooms.{tally_numbers};
ghost use Rattle.log_rooms.specs.Rooms.{FeedCrosses, standing_numbers};
ghost use Rattle.trim.specs.Left.{TrimCrosses};

// A replay that has read nothing, over a new session of an edition; 3.
#[unsafe(no_mangle)]
pub extern "C" fn egretfold_log_begin(
    log: &mut [u32; replay::LOG_CELLS],
    marks: &mut [u64; replay::MARKS],
    own: &mut [u32; state::OWN_CELLS],
    tallies: &mut [u64; state::TALLIES],
    shared: &mut [u32; state::SHARED_CELLS],
    edition: u32,
) -> u32
    ensures { Begins edition result log.old marks.old own.old tallies.old shared.old log.new marks.new own.new tallies.new shared.new }
{
    log_rooms::begin(log, marks, own, tallies, shared, edition)
}

// One byte: 0 where it was taken, else 18 or 19.
#[unsafe(no_mangle)]
pub extern "C" fn egretfold_log_byte(
    log: &mut [u32; replay::LOG_CELLS],
    marks: &mut [u64; replay::MARKS],
    own: &mut [u32; state::OWN_CELLS],
    tallies: &mut [u64; state::TALLIES],
    shared: &mut [u32; state::SHARED_CELLS],
    byte: u8,
) -> u32
    requires { ReplayGiven log.old marks.old own.old tallies.old shared.old }
    ensures { ByteLeft (replay_of (replay_in log.old marks.old own.old tallies.old shared.old) (byte ∷ [])) result log.new marks.new own.new tallies.new shared.new }
{
    log_rooms::take_byte(log, marks, own, tallies, shared, byte)
}

// A piece of bytes: how many were taken, and 18 or 19 for the first that wasn't, if any.
#[unsafe(no_mangle)]
pub extern "C" fn egretfold_log_feed(
    log: &mut [u32; replay::LOG_CELLS],
    marks: &mut [u64; replay::MARKS],
    own: &mut [u32; state::OWN_CELLS],
    tallies: &mut [u64; state::TALLIES],
    shared: &mut [u32; state::SHARED_CELLS],
    bytes: &[u8],
    taken: &mut [u64; 1],
) -> u32
    requires { ReplayGiven log.old marks.old own.old tallies.old shared.old }
    ensures { FeedCrosses (replay_of (replay_in log.old marks.old own.old tallies.old shared.old) bytes.now) result log.new marks.new own.new tallies.new shared.new taken.new }
{
    log_rooms::feed(log, marks, own, tallies, shared, bytes, taken)
}

// Where a replay stands: the number that stopped it; the first refused word's number and the midnights before it; the
// midnights so far, the first and the last day; how many bytes of an unfinished record stand. What isn't there is 0.
#[unsafe(no_mangle)]
pub extern "C" fn egretfold_log_status(
    log: &[u32; replay::LOG_CELLS],
    status: &mut [u32; log_rooms::STANDING_NUMBERS],
) -> u32
    ensures { Shows (standing_numbers (standing_of (viewed log.now [] (new_session 1)))) result status.new }
{
    log_rooms::standing(log, status)
}

// Runs and claimed elements of a part: 0 is what ended before the first midnight, k the k-th day; none past the last.
#[unsafe(no_mangle)]
pub extern "C" fn egretfold_log_part(
    log: &[u32; replay::LOG_CELLS],
    marks: &[u64; replay::MARKS],
    tallies: &[u64; state::TALLIES],
    part: u32,
    counts: &mut [u64; log_rooms::PART_NUMBERS],
) -> u32
    ensures { Shows (tally_numbers (part_of marks.now (midnights_in log.now) (now_in tallies.now) part)) result counts.new }
{
    log_rooms::part(log, marks, tallies, part, counts)
}

// Forgets all midnights but the last, so that 399 more may come: what was before it can no longer be reported, and all from its day on
// is as before. 0 in any case.
#[unsafe(no_mangle)]
pub extern "C" fn egretfold_log_trim(
    log: &mut [u32; replay::LOG_CELLS],
    marks: &mut [u64; replay::MARKS],
) -> u32
    requires { length log.old ≡ log_length }
    ensures { TrimCrosses log.old marks.old result log.new marks.new }
{
    trim::cross(log, marks)
}
