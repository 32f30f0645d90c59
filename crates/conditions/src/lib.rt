// The conditions of request 12: a value compared with numbers of 16 bits in lent memory, one by one and many that follow each other.
// Nothing is refused here.
#![tactic(auto)]

ghost use Rattle.std.specs.Prelude.{◌≡◌, ◌+◌, ◌*◌, ◌<◌, ◌≤◌, length};
ghost use Rattle.laws.specs.Below.{sum};
ghost use Rattle.laws.specs.Masks.{digit};
ghost use Rattle.conditions.specs.Asked.{StretchAsked};
ghost use Rattle.conditions.specs.Conditions.{passes, word_in};
ghost use Rattle.conditions.specs.Spans.{in_span, SpanOf, span_bit, written};

// The greatest number that is compared with.
const NUMBER_MOST: u32 = 0xFFFF;

// Result v op b, by the condition's number.
pub fn passes_test(test: u32, v: u32, b: u32) -> bool
    ensures { result ≡ passes test v b }
{
    match test {
        0 => false,
        1 => v < b,
        2 => v <= b,
        3 => v == b,
        4 => b <= v,
        5 => b < v,
        6 => v != b,
        7 => true,
        _ => false,
    }
}

// The two bytes at a place of memory, low byte first.
pub fn word_at(memory: &[u8], at: usize) -> u16
    requires { at + 2 ≤ length memory.now }
    ensures { result ≡ word_in memory.now at }
{
    u16::from(memory[at]) + 256 * u16::from(memory[at + 1])
}

// The numbers that a condition passes with a value: those of a span, or all others.
#[derive(Drop)]
pub struct Span {
    pub low: u16,
    pub top: u16,
    pub outside: bool,
}

// All numbers, or none of them.
fn whole(outside: bool) -> Span
    ensures { (result.low ≡ 0) × (result.top ≡ 65535) × (result.outside ≡ outside) }
{
    Span {
        low: 0,
        top: 0xFFFF,
        outside,
    }
}

// The span of a condition and a value that a number may have. A condition and its opposite have one span.
fn span_near(test: u32, v: u16) -> Span
    ensures { SpanOf test v result.low result.top result.outside }
{
    match test {
        1 => Span {
            low: 0,
            top: v,
            outside: true,
        },
        2 => Span {
            low: v,
            top: 0xFFFF - v,
            outside: false,
        },
        3 => Span {
            low: v,
            top: 0,
            outside: false,
        },
        4 => Span {
            low: 0,
            top: v,
            outside: false,
        },
        5 => Span {
            low: v,
            top: 0xFFFF - v,
            outside: true,
        },
        6 => Span {
            low: v,
            top: 0,
            outside: true,
        },
        7 => whole(false),
        // 0: never
        _ => whole(true),
    }
}

// The span of a condition and a value; a value above every number is greater than each.
pub fn span_of(test: u32, v: u32) -> Span
    ensures { SpanOf test v result.low result.top result.outside }
{
    if v <= NUMBER_MOST {
        return span_near(test, v as u16);
    }
    match test {
        4 => whole(false),
        5 => whole(false),
        6 => whole(false),
        7 => whole(false),
        _ => whole(true),
    }
}

// Whether a number passes.
fn in_span(low: u16, top: u16, outside: bool, b: u16) -> bool
    ensures { result ≡ in_span low top outside b }
{
    (std::num::wrapping_sub_u16(b, low) <= top) != outside
}

// The byte of the number at a place of memory, at 16 bits, at which many are added up at once.
pub fn bit_at(low: u16, top: u16, outside: bool, memory: &[u8], at: usize) -> u16
    requires { at + 2 ≤ length memory.now }
    ensures value { result ≡ span_bit low top outside memory.now at }
    ensures most { result ≤ 1 }
{
    in_span(low, top, outside, word_at(memory, at)) as u16
}

// The bytes of `n` numbers that follow each other into the room, and how many pass, one after another.
fn each_bit(
    low: u16,
    top: u16,
    outside: bool,
    memory: &[u8],
    at: usize,
    room: &mut [u8],
    line: usize,
    n: usize,
) -> u16
    requires { StretchAsked at line n (length memory.now) (length room.old) }
    ensures count { result ≡ sum n (λ i. span_bit low top outside memory.now (at + 2 * i)) }
    ensures bytes { room.new ≡ written line (λ i. span_bit low top outside memory.now (at + 2 * i)) n room.old }
{
    let mut passed = 0;
    for i in 0..n {
        let bit = bit_at(low, top, outside, memory, at + 2 * i);
        room[line + i] = bit as u8;
        passed += bit;
    }
    passed
}

// The bytes of `n` numbers that follow each other into the room, and how many pass.
pub fn stretch(
    low: u16,
    top: u16,
    outside: bool,
    memory: &[u8],
    at: usize,
    room: &mut [u8],
    line: usize,
    n: usize,
) -> u16
    requires { StretchAsked at line n (length memory.now) (length room.old) }
    ensures count { result ≡ sum n (λ i. span_bit low top outside memory.now (at + 2 * i)) }
    ensures bytes { room.new ≡ written line (λ i. span_bit low top outside memory.now (at + 2 * i)) n room.old }
{
    // which side of the span passes is a constant in each of the two loops that this becomes
    if outside {
        each_bit(low, top, true, memory, at, room, line, n)
    } else {
        each_bit(low, top, false, memory, at, room, line, n)
    }
}

// The same for four numbers, without a loop.
pub fn four(
    low: u16,
    top: u16,
    outside: bool,
    memory: &[u8],
    at: usize,
    room: &mut [u8],
    line: usize,
) -> u16
    requires { StretchAsked at line 4 (length memory.now) (length room.old) }
    ensures count { result ≡ sum 4 (λ i. span_bit low top outside memory.now (at + 2 * i)) }
    ensures bytes { room.new ≡ written line (λ i. span_bit low top outside memory.now (at + 2 * i)) 4 room.old }
{
    let a = bit_at(low, top, outside, memory, at);
    let b = bit_at(low, top, outside, memory, at + 2);
    let c = bit_at(low, top, outside, memory, at + 4);
    let d = bit_at(low, top, outside, memory, at + 6);
    room[line] = a as u8;
    room[line + 1] = b as u8;
    room[line + 2] = c as u8;
    room[line + 3] = d as u8;
    a + b + c + d
}
