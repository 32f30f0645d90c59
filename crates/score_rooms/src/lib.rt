// A station's monthly score over numbers, by its lease line and the replay of its log: a status, 0 or a refusal's number (3, 18,
// 19 or 21), with its numbers in rooms that the caller lends. A refusal touches no room.
#![tactic(auto)]

ghost use Rattle.std.specs.Prelude.{◌≡◌};
ghost use Rattle.score.specs.Lease.{lease_of, told_judged};
ghost use Rattle.score.specs.Answers.{lease_line};
ghost use Rattle.refusal.specs.Crossing.{status_of};
ghost use Rattle.score_rooms.specs.Rooms.{ScoreCrosses, line_told};

use refusal::Refusal;
use score::line::LeaseLine;
use state::edition;

// Kept (design pass 1, C interface): each public function below hands out a status number.
// The length of a month's room: what was served and owed in all, and the verdict.
pub const MONTH_NUMBERS: usize = 3;

// Whether an edition is one of the two and a lease line within its bounds; 3, then 21.
fn judge(edition: u32, line: LeaseLine) -> Result<(), Refusal>
    ensures { told_judged result ≡ line_told edition (lease_of line) }
{
    if !edition::is_known(edition) {
        return Err(Refusal::Malformed);
    }
    line.judge()
}

// The same as a status.
pub fn lease(edition: u32, first_day: u32, days: u32, owed: u32) -> u32
    ensures { result ≡ status_of (line_told edition (lease_line first_day days owed)) }
{
    let line = LeaseLine {
        first_day,
        days,
        owed,
    };
    match judge(edition, line) {
        Ok(()) => 0,
        Err(why) => u32::from(why),
    }
}

// The score of a replay: the claimed and the served number of each day of the lease, 0 past its last day; and the month's
// served and owed numbers and its verdict. 21 for the lease line, then 18 or 19 where it stopped the replay.
pub fn month(
    log: &[u32; replay::LOG_CELLS],
    marks: &[u64; replay::MARKS],
    tallies: &[u64; state::TALLIES],
    first_day: u32,
    days: u32,
    owed: u32,
    claimed: &mut [u64; score::DAYS],
    served: &mut [u64; score::DAYS],
    month: &mut [u64; MONTH_NUMBERS],
) -> u32
    ensures { ScoreCrosses (lease_line first_day days owed) log.now marks.now tallies.now result claimed.old served.old month.old claimed.new served.new month.new }
{
    let line = LeaseLine {
        first_day,
        days,
        owed,
    };
    match score::month::score(log, marks, tallies, line, claimed, served) {
        Err(number) => number,
        Ok(totals) => {
            *month = [totals.served, totals.owed, totals.verdict as u64];
            0
        }
    }
}
