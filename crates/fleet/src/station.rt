// One station: its log replayed and scored under its lease line.
ghost use Rattle.std.specs.Prelude.{◌≡◌, true, ◌≤◌, length};
ghost use Rattle.state.specs.Start.{is_edition};
ghost use Rattle.score.specs.Lease.{lease_of};
ghost use Rattle.score.specs.Answers.{lease_line};
ghost use Rattle.score.specs.Score.{score_of_log};
ghost use Rattle.fleet.specs.Fleet.{silent_in};
ghost use Rattle.fleet.specs.Answers.{ScoredAs, month_from, narrowed};

use refusal::Refusal;
use score::line::LeaseLine;
use station_log::stream;

// What a station's month comes to.
#[derive(Clone, Copy, Debug, PartialEq, Eq)]
pub struct Month {
    pub served: u64,
    pub owed: u64,
    pub silent: u64,
}

// The days of a lease line that owe something and are served 0, by the month's room of served numbers.
fn silent_days(served: &[u64; score::DAYS], days: u32, owed: u32) -> u64
    requires { (length served.now ≡ 31) × (days ≤ 31) }
    ensures { result ≡ silent_in days owed served.now }
{
    if owed == 0 {
        return 0;
    }
    // Kept (design pass 3, speed): by `filter` and `count` a month of a growing report takes 1,519 instructions, so 1,373.
    let mut silent = 0u64;
    for k in 0..days {
        silent += u64::from(served[k as usize] == 0);
    }
    silent
}

// The month of a replay, or the number of its score's refusal.
// Kept (design pass 5, C interface): C lends a replay's arrays one by one.
pub fn summed(
    log: &[u32; replay::LOG_CELLS],
    marks: &[u64; replay::MARKS],
    tallies: &[u64; state::TALLIES],
    line: LeaseLine,
) -> Result<Month, u32>
    ensures { ScoredAs (lease_of line) log.now marks.now tallies.now result }
{
    let mut claimed: [u64; score::DAYS] = [0; score::DAYS];
    let mut served: [u64; score::DAYS] = [0; score::DAYS];
    let totals = score::month::score(log, marks, tallies, line, &mut claimed, &mut served)?;
    Ok(Month {
        served: totals.served,
        owed: totals.owed,
        silent: silent_days(&served, line.days, line.owed),
    })
}

// The month of a log, replayed in arrays of its own.
fn replayed(edition: u32, bytes: &[u8], line: LeaseLine) -> Result<Month, u32>
    requires { is_edition edition ≡ true }
    ensures { result ≡ month_from (lease_of line) (score_of_log edition (lease_of line) bytes.now) }
{
    let mut log: [u32; replay::LOG_CELLS] = [0; replay::LOG_CELLS];
    let mut marks: [u64; replay::MARKS] = [0; replay::MARKS];
    let mut own: [u32; state::OWN_CELLS] = [0; state::OWN_CELLS];
    let mut tallies: [u64; state::TALLIES] = [0; state::TALLIES];
    let mut shared: [u32; state::SHARED_CELLS] = [0; state::SHARED_CELLS];
    stream::begin(
        &mut log,
        &mut marks,
        &mut own,
        &mut tallies,
        &mut shared,
        edition,
    )?;
    stream::feed(
        &mut log,
        &mut marks,
        &mut own,
        &mut tallies,
        &mut shared,
        bytes,
    );
    summed(&log, &marks, &tallies, line)
}

// A number of a lease line in 32 bits: a wider one is out of its bounds, 21.
fn narrow(number: u64) -> Result<u32, Refusal>
    ensures { narrowed result number }
{
    u32::try_from(number).map_err(|_| Refusal::LeaseLine)
}

// The month of a station, whose lease line's numbers may be wider than 32 bits: 21 for these.
pub fn month_of(
    edition: u32,
    bytes: &[u8],
    first_day: u64,
    days: u64,
    owed: u64,
) -> Result<Month, u32>
    requires { is_edition edition ≡ true }
    ensures { result ≡ month_from (lease_line first_day days owed) (score_of_log edition (lease_line first_day days owed) bytes.now) }
{
    let line = LeaseLine {
        first_day: narrow(first_day)?,
        days: narrow(days)?,
        owed: narrow(owed)?,
    };
    replayed(edition, bytes, line)
}
