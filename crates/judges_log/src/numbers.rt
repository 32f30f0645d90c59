// A replay's own ten numbers.
ghost use Rattle.std.specs.Prelude.{◌≡◌, []};
ghost use Rattle.state.specs.State.{new_session};
ghost use Rattle.replay.specs.Cells.{viewed};
ghost use Rattle.judges_log.specs.Judged.{byte_by, days_by, numbers_by, record_by, refused_by, stop_by};

use judges::tests::both;
use replay::{bytes, own};

// Whether the number that stopped the replay is none, or one that does and no record is open.
fn is_stop(number: u32, count: u32) -> bool
    ensures { result ≡ stop_by number count }
{
    if number == 0 {
        return true;
    }
    if number == own::BY_KIND {
        return count == 0;
    }
    both(number == own::BY_DAY, count == 0)
}

// Byte `k` of the open record stands and is one, or it hasn't come and is 0.
fn is_byte(count: u32, k: u32, byte: u32) -> bool
    ensures { result ≡ byte_by count k byte }
{
    if k < count { byte < 256 } else { byte == 0 }
}

// Whether no record is open and its numbers are 0, or its kind is one and its bytes are.
fn is_record(count: u32, kind: u32, low: u32, second: u32, third: u32) -> bool
    ensures { result ≡ record_by (record { count = count; kind = kind; low = low; second = second; third = third }) }
{
    let rest = both(
        is_byte(count, 1, low),
        both(is_byte(count, 2, second), is_byte(count, 3, third)),
    );
    if count == 0 {
        return both(kind == 0, rest);
    }
    both(count <= 4, both(bytes::is_kind(kind), rest))
}

// Whether a first refused word came after no more midnights than have come, and after none where there is none.
fn is_refused(number: u32, after: u32, midnights: u32) -> bool
    ensures { result ≡ refused_by (record { number = number; midnights = after }) midnights }
{
    if number == 0 {
        return after == 0;
    }
    after <= midnights
}

// Whether so many midnights can have come, the last on this day.
fn are_days(midnights: u32, last: u32) -> bool
    ensures { result ≡ days_by midnights last }
{
    if midnights == 0 {
        return last == 0;
    }
    both(
        midnights <= replay::MOST_MIDNIGHTS,
        u64::from(midnights) <= u64::from(last) + 1,
    )
}

// Whether a replay's own numbers are such as the entries leave.
pub fn are_kept(log: &[u32; replay::LOG_CELLS]) -> bool
    ensures { result ≡ numbers_by (viewed log.now [] (new_session 1)) }
{
    let midnights = log[own::MIDNIGHTS];
    let count = log[own::COUNT];
    let stop = is_stop(log[own::STOPPED_BY], count);
    let record = is_record(
        count,
        log[own::KIND],
        log[own::LOW],
        log[own::SECOND],
        log[own::THIRD],
    );
    let refused = is_refused(log[own::REFUSED], log[own::REFUSED_AFTER], midnights);
    let days = are_days(midnights, log[own::LAST_DAY]);
    both(stop, both(record, both(refused, days)))
}
