// States that were kept elsewhere, on disk say: whether the arrays are such as the entries take and leave. A yes is just what the
// functions on a session, on two parties, on a replay, on a group and on a growing report require of these arrays; nothing is written.
ghost use Rattle.std.specs.Prelude.{◌≡◌, length};
ghost use Rattle.group.specs.Cells.{cell_count};
ghost use Rattle.state.specs.Asked.{Given};
ghost use Rattle.state.specs.Cells.{Sized};
ghost use Rattle.lessees.specs.Rooms.{PairGiven};
ghost use Rattle.replay.specs.Cells.{ReplayGiven};
ghost use Rattle.station_log.specs.Asked.{ReplaySized};
ghost use Rattle.judges.specs.Judged.{Judges};
ghost use Rattle.judges_group.specs.Judged.{JudgesGroup};
ghost use Rattle.growing.specs.Cells.{SumsGiven};

// Whether the arrays hold a session.
#[unsafe(no_mangle)]
pub extern "C" fn egretfold_session_check(
    own: &[u32; state::OWN_CELLS],
    tallies: &[u64; state::TALLIES],
    shared: &[u32; state::SHARED_CELLS],
) -> bool
    requires { Sized own.now tallies.now shared.now }
    ensures { Judges result (Given own.now tallies.now shared.now) }
{
    judges::is_session(own, tallies, shared)
}

// Whether the arrays hold a session of two parties.
#[unsafe(no_mangle)]
pub extern "C" fn egretfold_pair_check(
    own0: &[u32; state::OWN_CELLS],
    tallies0: &[u64; state::TALLIES],
    own1: &[u32; state::OWN_CELLS],
    tallies1: &[u64; state::TALLIES],
    shared: &[u32; state::SHARED_CELLS],
) -> bool
    requires { Sized own0.now tallies0.now shared.now × Sized own1.now tallies1.now shared.now }
    ensures { Judges result (PairGiven own0.now tallies0.now own1.now tallies1.now shared.now) }
{
    judges_pair::is_pair(own0, tallies0, own1, tallies1, shared)
}

// Whether the arrays hold a replay.
#[unsafe(no_mangle)]
pub extern "C" fn egretfold_log_check(
    log: &[u32; replay::LOG_CELLS],
    marks: &[u64; replay::MARKS],
    own: &[u32; state::OWN_CELLS],
    tallies: &[u64; state::TALLIES],
    shared: &[u32; state::SHARED_CELLS],
) -> bool
    requires { ReplaySized log.now marks.now own.now tallies.now shared.now }
    ensures { Judges result (ReplayGiven log.now marks.now own.now tallies.now shared.now) }
{
    judges_log::is_replay(log, marks, own, tallies, shared)
}

// Whether the cells are a group's.
#[unsafe(no_mangle)]
pub extern "C" fn egretfold_group_check(cells: &[u32; group::CELLS]) -> bool
    requires { length cells.now ≡ cell_count }
    ensures { JudgesGroup cells.now result }
{
    judges_group::is_group(cells)
}

// Whether the numbers are a growing report's.
#[unsafe(no_mangle)]
pub extern "C" fn egretfold_fleet_check(sums: &[u64; growing::SUMS]) -> bool
    requires { length sums.now ≡ 8 }
    ensures { Judges result (SumsGiven sums.now) }
{
    growing::is_kept(sums)
}
