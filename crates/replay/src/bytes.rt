// The bytes that a record begins and ends with: its kind, the number that its bytes are, and a midnight.
ghost use Rattle.std.specs.Prelude.{◌≡◌};
ghost use Rattle.replay.specs.Step.{is_kind, kind_step, may_begin, midnight_step, number_from};
ghost use Rattle.replay.specs.Own.{Answered, MidnightAsked, MidnightLeft, NumberAsked, reply_of};

use crate::own;
use refusal::Refusal;

// The number of four bytes, low byte first.
// Kept (design pass 4, C interface): three of them stand as numbers of 32 bits in cells that C lends, so from_le_bytes is no plainer.
pub fn number(low: u32, second: u32, third: u32, high: u32) -> u32
    requires { NumberAsked low second third high }
    ensures { result ≡ number_from low second third high }
{
    low + 256 * second + 65536 * third + 16777216 * high
}

// Whether a byte is a record's kind.
pub fn is_kind(byte: u32) -> bool
    ensures { result ≡ is_kind byte }
{
    byte == 1 || byte == 2
}

// A record's first byte: 18 where it is no kind.
pub fn kind_byte(log: &mut [u32; crate::LOG_CELLS], byte: u32) -> Result<(), Refusal>
    ensures { Answered (λ s. kind_step s byte) (reply_of result) log.old log.new }
{
    if is_kind(byte) {
        own::open(log, byte);
        return Ok(());
    }
    own::stop(log, own::BY_KIND);
    Err(Refusal::RecordKind)
}

// Whether a day may begin: the first midnight may name any, each later one is one more than the last; at most 400 come.
fn may_begin(midnights: u32, last: u32, day: u32) -> bool
    ensures { result ≡ may_begin midnights last day }
{
    midnights < crate::MOST_MIDNIGHTS && (midnights == 0 || u64::from(day) == u64::from(last) + 1)
}

// A midnight: the session's tallies are marked, and a day begins; 19 where it may not.
pub fn midnight(
    log: &mut [u32; crate::LOG_CELLS],
    marks: &mut [u64; crate::MARKS],
    tallies: &[u64; state::TALLIES],
    day: u32,
) -> Result<(), Refusal>
    requires { MidnightAsked log.old marks.old tallies.now }
    ensures { MidnightLeft (λ s. midnight_step s day) (reply_of result) log.old marks.old tallies.now log.new marks.new }
{
    let midnights = log[own::MIDNIGHTS];
    if may_begin(midnights, log[own::LAST_DAY], day) {
        let at = 2 * midnights as usize;
        marks[at] = tallies[0];
        marks[at + 1] = tallies[1];
        own::begin_day(log, midnights + 1, day);
        return Ok(());
    }
    own::stop(log, own::BY_DAY);
    Err(Refusal::MidnightDay)
}
