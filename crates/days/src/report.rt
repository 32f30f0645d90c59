// What a replay reports: where it stands, and the runs and claims of each part. Nothing here changes a number, and any numbers
// are answered.
ghost use Rattle.std.specs.Prelude.{◌≡◌, [], ◌-◌, get_or};
ghost use Rattle.state.specs.State.{new_session};
ghost use Rattle.replay.specs.Report.{began_with, ended_with, first_day, mark_at, part_of};
ghost use Rattle.replay.specs.Cells.{viewed};
ghost use Rattle.days.specs.Reported.{midnights_in, now_in, standing_of, tally_of};

use replay::own;

// Runs, and claimed elements.
#[derive(Clone, Copy, Debug, Default, PartialEq, Eq)]
pub struct Counts {
    pub runs: u64,
    pub claims: u64,
}

// Kept (design pass 5, C interface): C lends a replay's arrays one by one, here and in each function below.
// The number at a place; 0 past the end.
fn number_at(numbers: &[u64], place: usize) -> u64
    ensures { result ≡ get_or numbers.now place 0 }
{
    numbers.get(place).copied().unwrap_or(0)
}

// The marks of midnight `k`, counted from 0; 0 and 0 past the room.
fn mark(marks: &[u64; replay::MARKS], k: u32) -> Counts
    ensures { tally_of result ≡ mark_at marks.now k }
{
    let at = 2 * k as usize;
    Counts {
        runs: number_at(marks, at),
        claims: number_at(marks, at + 1),
    }
}

// The tallies when part `k` began.
// Kept (design pass 2, no plainer): this and the next differ in the part that no midnight bounds: 0 before the first, now after the last.
pub fn began(marks: &[u64; replay::MARKS], k: u32) -> Counts
    ensures { tally_of result ≡ began_with marks.now k }
{
    if k == 0 {
        Counts::default()
    } else {
        mark(marks, k - 1)
    }
}

// The tallies when part `k` ended; of the last part those of now.
pub fn ended(
    marks: &[u64; replay::MARKS],
    midnights: u32,
    tallies: &[u64; state::TALLIES],
    k: u32,
) -> Counts
    ensures { tally_of result ≡ ended_with marks.now midnights (now_in tallies.now) k }
{
    if k < midnights {
        mark(marks, k)
    } else {
        Counts {
            runs: tallies[0],
            claims: tallies[1],
        }
    }
}

// The runs and claims that ended in part `k`: part 0 is before the first midnight, part `k` the k-th day; none past the last.
pub fn part(
    log: &[u32; replay::LOG_CELLS],
    marks: &[u64; replay::MARKS],
    tallies: &[u64; state::TALLIES],
    k: u32,
) -> Counts
    ensures { tally_of result ≡ part_of marks.now (midnights_in log.now) (now_in tallies.now) k }
{
    let midnights = log[own::MIDNIGHTS];
    if midnights < k {
        return Counts::default();
    }
    let from = began(marks, k);
    let to = ended(marks, midnights, tallies, k);
    Counts {
        runs: to.runs.saturating_sub(from.runs),
        claims: to.claims.saturating_sub(from.claims),
    }
}

// Kept (design pass 1, C interface): C is told 0 for what isn't there, as a replay's cells have it.
// Where a replay stands: the number that stopped it; the first refused word's number, and the midnights before it; the
// midnights so far, the first and the last day; and how many bytes of an unfinished record stand. What isn't there is 0.
#[derive(Clone, Copy, Debug, PartialEq, Eq)]
pub struct Standing {
    pub stopped_by: u32,
    pub refused: u32,
    pub refused_after: u32,
    pub midnights: u32,
    pub first_day: u32,
    pub last_day: u32,
    pub unfinished: u32,
}

// The day of the first midnight.
fn first_day(midnights: u32, last: u32) -> u32
    ensures { result ≡ first_day midnights last }
{
    if midnights == 0 {
        return 0;
    }
    last.saturating_sub(midnights - 1)
}

pub fn standing_of(log: &[u32; replay::LOG_CELLS]) -> Standing
    ensures { result ≡ standing_of (viewed log.now [] (new_session 1)) }
{
    let midnights = log[own::MIDNIGHTS];
    let last = log[own::LAST_DAY];
    let first = first_day(midnights, last);
    Standing {
        stopped_by: log[own::STOPPED_BY],
        refused: log[own::REFUSED],
        refused_after: log[own::REFUSED_AFTER],
        midnights,
        first_day: first,
        last_day: last,
        unfinished: log[own::COUNT],
    }
}
