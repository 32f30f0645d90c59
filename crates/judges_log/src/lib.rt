// Whether arrays that were kept elsewhere hold a replay that the entries take: a yes is just what the entries require. Nothing is
// written.
#![tactic(auto)]

pub mod marks;
pub mod numbers;

ghost use Rattle.replay.specs.Cells.{ReplayGiven};
ghost use Rattle.station_log.specs.Asked.{ReplaySized};
ghost use Rattle.judges.specs.Judged.{Judges};

use judges;
use judges::tests::both;
use replay::own;

// Whether the arrays hold a replay: its own numbers, its session, and the tallies at the midnights.
pub fn is_replay(
    log: &[u32; replay::LOG_CELLS],
    marks: &[u64; replay::MARKS],
    own: &[u32; state::OWN_CELLS],
    tallies: &[u64; state::TALLIES],
    shared: &[u32; state::SHARED_CELLS],
) -> bool
    requires { ReplaySized log.now marks.now own.now tallies.now shared.now }
    ensures { Judges result (ReplayGiven log.now marks.now own.now tallies.now shared.now) }
{
    if numbers::are_kept(log) {
        let session = judges::is_session(own, tallies, shared);
        both(
            session,
            marks::are_kept(marks, log[own::MIDNIGHTS], tallies),
        )
    } else {
        false
    }
}
