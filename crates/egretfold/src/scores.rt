// A station's monthly score, by its lease line and the replay of its log. A score has no state of its own.
ghost use Rattle.std.specs.Prelude.{◌≡◌};
ghost use Rattle.score.specs.Answers.{lease_line};
ghost use Rattle.refusal.specs.Crossing.{status_of};
ghost use Rattle.score_rooms.specs.Rooms.{ScoreCrosses, line_told};

// Whether an edition is one of the two and a lease line within its bounds; 3, then 21.
#[unsafe(no_mangle)]
pub extern "C" fn egretfold_score_lease(edition: u32, first_day: u32, days: u32, owed: u32) -> u32
    ensures { result ≡ status_of (line_told edition (lease_line first_day days owed)) }
{
    score_rooms::lease(edition, first_day, days, owed)
}

// The score of a replay: the claimed and the served number of each day of the lease, 0 past its last day; and the month's
// served and owed numbers and its verdict. 21 for the lease line, then 18 or 19 where it stopped the replay.
#[unsafe(no_mangle)]
pub extern "C" fn egretfold_score_month(
    log: &[u32; replay::LOG_CELLS],
    marks: &[u64; replay::MARKS],
    tallies: &[u64; state::TALLIES],
    first_day: u32,
    days: u32,
    owed: u32,
    claimed: &mut [u64; score::DAYS],
    served: &mut [u64; score::DAYS],
    month: &mut [u64; score_rooms::MONTH_NUMBERS],
) -> u32
    ensures { ScoreCrosses (lease_line first_day days owed) log.now marks.now tallies.now result claimed.old served.old month.old claimed.new served.new month.new }
{
    score_rooms::month(
        log, marks, tallies, first_day, days, owed, claimed, served, month,
    )
}
