// Trimming a replay: of its midnights only the last one is kept, so that a replay that goes on from month to month never fills its
// room of 400. What it was before that midnight is forgotten; the runs and claims from there on are the same.
#![tactic(auto)]

ghost use Rattle.std.specs.Prelude.{◌≡◌, length};
ghost use Rattle.replay.specs.Places.{log_length};
ghost use Rattle.trim.specs.Left.{TrimCrosses, Trims};
ghost use Rattle.trim.specs.Trim.{only_mark};

use days::report;
use replay::own;

// Leaves the marks of one midnight.
fn keep(marks: &mut [u64; replay::MARKS], runs: u64, claims: u64)
    ensures { marks.new ≡ only_mark (record { runs = runs; claims = claims }) }
{
    *marks = [0; replay::MARKS];
    marks[0] = runs;
    marks[1] = claims;
}

// Forgets all midnights but the last.
pub fn trim(log: &mut [u32; replay::LOG_CELLS], marks: &mut [u64; replay::MARKS])
    requires { length log.old ≡ log_length }
    ensures { Trims log.old marks.old log.new marks.new }
{
    let midnights = log[own::MIDNIGHTS];
    if midnights > 0 {
        let last = report::began(marks, midnights);
        keep(marks, last.runs, last.claims);
        log[own::REFUSED_AFTER] = log[own::REFUSED_AFTER].saturating_sub(midnights - 1);
        log[own::MIDNIGHTS] = 1;
    }
}

// Kept (design pass 1, C interface): the status of an answer that is never refused.
// The same as an entry: 0 in any case.
pub fn cross(log: &mut [u32; replay::LOG_CELLS], marks: &mut [u64; replay::MARKS]) -> u32
    requires { length log.old ≡ log_length }
    ensures { TrimCrosses log.old marks.old result log.new marks.new }
{
    trim(log, marks);
    0
}
