// Document 01's refusals, and those that document 02's requests add: each cause by name, and its number. Every answer that
// can refuse holds a `Refusal`, so the numbers stand here; a state that keeps one, as a stopped replay's, names it by a constant.
#![tactic(auto)]

ghost use Rattle.std.specs.Prelude.{◌≡◌};
ghost use Rattle.refusal.specs.Number.{IsNumber, number_of};

#[derive(Clone, Copy, Debug, PartialEq, Eq)]
pub enum Refusal {
    // 1: the session is stopped.
    Stopped,
    // 2: a header word stands in no line of the command table.
    UnknownHeader,
    // 3: a reserved bit or code is set, a layout argument is malformed, or an edition is neither 1 nor 2.
    Malformed,
    // 4: input number over 15, output number over 3.
    NumberTooHigh,
    // 5: i0 > i1 or j0 > j1.
    DomainCrossed,
    // 6: window rule broken.
    WindowRule,
    // 7: start without a domain, an instruction format or any output set.
    StartUnset,
    // 8: the domain is not inside every set output's window.
    DomainOutside,
    // 9: spans of two set outputs share a byte.
    SpansShared,
    // 10: a pair is outside its window.
    PairOutside,
    // 11: room, element data or memory of a wrong length or place.
    WrongLength,
    // 12: no pair of the window owns the address.
    Unowned,
    // 13: flow word field or group size not allowed.
    FlowField,
    // 14: branch counter or return stack at its limit.
    AtLimit,
    // 15: a jump past the program's end, or a program of a wrong length.
    PastEnd,
    // 16: the program has already ended.
    Ended,
    // 17: the session has taken 1,000,000,000 words.
    WordLimit,
    // 18: the kind byte of a log's record is neither 1 nor 2.
    RecordKind,
    // 19: a midnight's day isn't one more than the last, or it is the 401st midnight.
    MidnightDay,
    // 20: a number, or a setting of party 0's, that the party doesn't own.
    NotOwned,
    // 21: a lease line out of its bounds.
    LeaseLine,
    // 22: a report over more than 64 logs.
    TooManyLogs,
}

// The number of a refusal, 1 to 22.
impl From<Refusal> for u32 {
    ghost from_gives = { λ r n. n ≡ number_of r };

    fn from(r: Refusal) -> u32 {
        match r {
            Refusal::Stopped => 1,
            Refusal::UnknownHeader => 2,
            Refusal::Malformed => 3,
            Refusal::NumberTooHigh => 4,
            Refusal::DomainCrossed => 5,
            Refusal::WindowRule => 6,
            Refusal::StartUnset => 7,
            Refusal::DomainOutside => 8,
            Refusal::SpansShared => 9,
            Refusal::PairOutside => 10,
            Refusal::WrongLength => 11,
            Refusal::Unowned => 12,
            Refusal::FlowField => 13,
            Refusal::AtLimit => 14,
            Refusal::PastEnd => 15,
            Refusal::Ended => 16,
            Refusal::WordLimit => 17,
            Refusal::RecordKind => 18,
            Refusal::MidnightDay => 19,
            Refusal::NotOwned => 20,
            Refusal::LeaseLine => 21,
            Refusal::TooManyLogs => 22,
        }
    }
}

// The refusal that has the number; every refusal's number is asked of it, and no other.
pub fn with_number(number: u32) -> Refusal
    requires { IsNumber number }
    ensures { number_of result ≡ number }
{
    match number {
        1 => Refusal::Stopped,
        2 => Refusal::UnknownHeader,
        3 => Refusal::Malformed,
        4 => Refusal::NumberTooHigh,
        5 => Refusal::DomainCrossed,
        6 => Refusal::WindowRule,
        7 => Refusal::StartUnset,
        8 => Refusal::DomainOutside,
        9 => Refusal::SpansShared,
        10 => Refusal::PairOutside,
        11 => Refusal::WrongLength,
        12 => Refusal::Unowned,
        13 => Refusal::FlowField,
        14 => Refusal::AtLimit,
        15 => Refusal::PastEnd,
        16 => Refusal::Ended,
        17 => Refusal::WordLimit,
        18 => Refusal::RecordKind,
        19 => Refusal::MidnightDay,
        20 => Refusal::NotOwned,
        21 => Refusal::LeaseLine,
        _ => Refusal::TooManyLogs,
    }
}
