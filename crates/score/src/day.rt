// One day of a lease: what was claimed on it, and how much of that is served.
ghost use Rattle.std.specs.Prelude.{◌≡◌};
ghost use Rattle.score.specs.Score.{claimed_on, has_midnight};
ghost use Rattle.score.specs.Answers.{replay_for};

use days::report;
use replay::own;

// Whether the log has a midnight record of a day: the last midnight's day and those before it, as many as midnights came.
fn has_midnight(midnights: u32, last: u32, day: u32) -> bool
    ensures { result ≡ has_midnight midnights last day }
{
    day <= last && last - day < midnights
}

// The elements claimed on the day with this number; 0 where the log has no midnight record of it. What ended before the first
// midnight is of no day, and the last day goes on to the log's end.
pub fn claimed_on(
    log: &[u32; replay::LOG_CELLS],
    marks: &[u64; replay::MARKS],
    tallies: &[u64; state::TALLIES],
    day: u32,
) -> u64
    ensures { result ≡ claimed_on (replay_for log.now marks.now tallies.now) day }
{
    let midnights = log[own::MIDNIGHTS];
    let last = log[own::LAST_DAY];
    if has_midnight(midnights, last, day) {
        report::part(log, marks, tallies, midnights - (last - day)).claims
    } else {
        0
    }
}
