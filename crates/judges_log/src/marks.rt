// The tallies at the midnights: they only grow from part to part, and are 0 for the midnights that haven't come.
ghost use Rattle.std.specs.Prelude.{◌≡◌, ◌+◌, ◌<◌, ◌≤◌};
ghost use Rattle.laws.specs.Below.{every};
ghost use Rattle.replay.specs.State.{marks_length, most_midnights};
ghost use Rattle.days.specs.Reported.{now_in};
ghost use Rattle.judges_log.specs.Judged.{grows_at, marks_by, rest_at};

use days::report;
use judges::tests::both;

// Whether the tallies grew in part `k`.
fn grows(
    marks: &[u64; replay::MARKS],
    midnights: u32,
    tallies: &[u64; state::TALLIES],
    k: u32,
) -> bool
    ensures { result ≡ grows_at marks.now midnights (now_in tallies.now) k }
{
    let from = report::began(marks, k);
    let to = report::ended(marks, midnights, tallies, k);
    both(from.runs <= to.runs, from.claims <= to.claims)
}

// Whether they grew in each part.
fn all_grow(marks: &[u64; replay::MARKS], midnights: u32, tallies: &[u64; state::TALLIES]) -> bool
    requires { midnights ≤ most_midnights }
    ensures { result ≡ every (midnights + 1) (grows_at marks.now midnights (now_in tallies.now)) }
{
    let mut good = true;
    for k in 0..midnights + 1 {
        good = both(good, grows(marks, midnights, tallies, k));
    }
    good
}

// Whether mark `k` is one of a midnight that has come, or 0.
fn is_rest(marks: &[u64; replay::MARKS], midnights: u32, k: usize) -> bool
    requires { (midnights ≤ most_midnights) × (k < marks_length) }
    ensures { result ≡ rest_at marks.now midnights k }
{
    k < 2 * midnights as usize || marks[k] == 0
}

// Whether the marks of the midnights that haven't come are 0.
fn are_rest(marks: &[u64; replay::MARKS], midnights: u32) -> bool
    requires { midnights ≤ most_midnights }
    ensures { result ≡ every marks_length (rest_at marks.now midnights) }
{
    let mut good = true;
    for k in 0..replay::MARKS {
        good = both(good, is_rest(marks, midnights, k));
    }
    good
}

// Whether the marks are such as the entries leave, with so many midnights and the session's tallies.
pub fn are_kept(
    marks: &[u64; replay::MARKS],
    midnights: u32,
    tallies: &[u64; state::TALLIES],
) -> bool
    requires { midnights ≤ most_midnights }
    ensures { result ≡ marks_by marks.now midnights (now_in tallies.now) }
{
    both(
        all_grow(marks, midnights, tallies),
        are_rest(marks, midnights),
    )
}
