// The score of a month: the numbers of its days, what they come to, and what the station is called.
ghost use Rattle.std.specs.Prelude.{◌≡◌};
ghost use Rattle.score.specs.Lease.{lease_of};
ghost use Rattle.score.specs.Answers.{Bounded, Filled, Scores, called_by, replay_for};

use crate::day;
use crate::line::LeaseLine;
use replay::own;

// What a station is called.
#[derive(Clone, Copy, Debug, PartialEq, Eq)]
pub enum Verdict {
    // Every day owes more than 0 and is served in full.
    Full,
    Short,
    NothingOwed,
}

// What a month comes to.
#[derive(Clone, Copy, Debug, PartialEq, Eq)]
pub struct Totals {
    pub served: u64,
    pub owed: u64,
    pub verdict: Verdict,
}

// Writes the claimed and the served number of each day of a lease line, 0 past its last day, and gives what was served in all.
fn fill(
    log: &[u32; replay::LOG_CELLS],
    marks: &[u64; replay::MARKS],
    tallies: &[u64; state::TALLIES],
    line: LeaseLine,
    claimed: &mut [u64; crate::DAYS],
    served: &mut [u64; crate::DAYS],
) -> u64
    requires { Bounded (lease_of line) }
    ensures { Filled (lease_of line) (replay_for log.now marks.now tallies.now) result claimed.new served.new }
{
    *claimed = [0; crate::DAYS];
    *served = [0; crate::DAYS];
    let mut total = 0u64;
    for k in 0..line.days {
        let number = day::claimed_on(log, marks, tallies, line.first_day + k);
        let counted = number.min(u64::from(line.owed));
        claimed[k as usize] = number;
        served[k as usize] = counted;
        total += counted;
    }
    total
}

// What a month is called by its two numbers: no day is served more than it owes, so that they are the same exactly where every
// day is served in full.
fn called(served: u64, owed: u64) -> Verdict
    ensures { result ≡ called_by served owed }
{
    if owed == 0 {
        return Verdict::NothingOwed;
    }
    if served == owed {
        return Verdict::Full;
    }
    Verdict::Short
}

// The score of a replay under a lease line: the month, or the number of the refusal, 21 for the lease line, then the one that stopped
// the replay. The rooms hold a number for each day of the lease, 0 past its last day; a refusal writes nothing.
// Kept (design pass 1, what may not change): the error is a number and no `Refusal`, since `Scores` promises the number that stands in
// any log, and a log is lent unjudged.
pub fn score(
    log: &[u32; replay::LOG_CELLS],
    marks: &[u64; replay::MARKS],
    tallies: &[u64; state::TALLIES],
    line: LeaseLine,
    claimed: &mut [u64; crate::DAYS],
    served: &mut [u64; crate::DAYS],
) -> Result<Totals, u32>
    ensures { Scores (lease_of line) log.now marks.now tallies.now result claimed.old served.old claimed.new served.new }
{
    line.judge()?;
    let by = log[own::STOPPED_BY];
    if by != 0 {
        return Err(by);
    }
    let total = fill(log, marks, tallies, line, claimed, served);
    let due = u64::from(line.days) * u64::from(line.owed);
    Ok(Totals {
        served: total,
        owed: due,
        verdict: called(total, due),
    })
}
