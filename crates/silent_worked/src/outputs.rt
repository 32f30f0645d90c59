// Starts with two outputs set: one with each format code at each number under each nibble of the mask, and beside it one of
// UINT8_4 whose own nibble is 15 or 0. Then starts with every output silent, with none set, and under masks that change.
use refusal::Refusal;
use session::stream;
use state::edition;
use std::io;
use worked::tally::Tally;

// Where the two windows and the domain lie: apart with the domain inside both, the domain past the first window alone, or both
// windows on the same bytes.
#[derive(Clone, Copy)]
enum Lie {
    Apart,
    Outside,
    Together,
}

// What a stream came to: its first refusal's number (0: none), the runs and the claims.
#[derive(Drop)]
struct Came {
    first: u32,
    runs: u64,
    claims: u64,
}

// A refusal's number, 0 for none.
// Kept (design pass 1, no plainer): the numbers that a test expects are the document's own, and are compared as such.
fn number(refusal: Option<Refusal>) -> u32 {
    match refusal {
        None => 0,
        Some(why) => u32::from(why),
    }
}

// A stream in one piece from a new session.
fn come(words: &[u32]) -> Came {
    let mut own: [u32; state::OWN_CELLS] = [0; state::OWN_CELLS];
    let mut tallies: [u64; state::TALLIES] = [0; state::TALLIES];
    let mut shared: [u32; state::SHARED_CELLS] = [0; state::SHARED_CELLS];
    let _ = stream::begin(&mut own, &mut tallies, &mut shared, edition::BY_OUTPUT);
    let fed = stream::feed(&mut own, &mut tallies, &mut shared, words);
    Came {
        first: number(fed.refusal),
        runs: tallies[0],
        claims: tallies[1],
    }
}

// Whether a nibble has a bit for a channel of a format code, from the paper: bit k of a code's number is nibble k. One channel
// asks for an odd nibble, two for any but 0, 4, 8 and C, four for any but 0.
fn heard(code: u32, nibble: u32) -> bool {
    let nibbles: [u32; 5] = [0xAAAA, 0xFFFE, 0xAAAA, 0xEEEE, 0xFFFE];
    let at = (code % 5) as usize;
    nibbles[at] >> (nibble % 16) & 1 == 1
}

// The mask with this nibble for output n, and all ones or all zeros for the others.
fn mask_of(n: u32, nibble: u32, others: bool) -> u32 {
    let place = 4 * (n % 4);
    let own = 15 << place;
    let bits = nibble << place & own;
    if others { 65535 ^ own | bits } else { bits }
}

// The last column of the domain: the first window has 64 columns, the second 128.
// Kept (design pass 2, no plainer; also `second_base`): two tables of the same three lies, each with numbers of its own.
fn last_column(lie: Lie) -> u32 {
    match lie {
        Lie::Apart => 3,
        Lie::Outside => 64,
        Lie::Together => 3,
    }
}

// The base of the second output: the first stands at 800 (hex) and has at most 1000 bytes.
fn second_base(lie: Lie) -> u32 {
    match lie {
        Lie::Apart => 0x8000,
        Lie::Outside => 0x8000,
        Lie::Together => 0x800,
    }
}

// Output n with the format code, the next output beside it, the mask, a domain of two rows, and a start.
fn words_of(lie: Lie, code: u32, n: u32, mask: u32) -> [u32; 22] {
    [
        0xC0010A00,
        0x1000,
        0x4000010,
        0xC0001900,
        mask,
        0xC0030C00,
        n % 4,
        0x800,
        code % 5 * 0x1000000 + 0x40,
        4,
        0xC0030C00,
        (n % 4 + 1) % 4,
        second_base(lie),
        0x1000080,
        4,
        0xC0030700,
        0,
        0,
        last_column(lie),
        1,
        0xC0000800,
        0,
    ]
}

// The number that the start earns: 8 and 9 only for outputs that aren't silent.
fn earned(lie: Lie, first: bool, second: bool) -> u32 {
    match lie {
        Lie::Apart => 0,
        Lie::Outside => { if first { 8 } else { 0 } }
        Lie::Together => { if first && second { 9 } else { 0 } }
    }
}

fn pairs_if(counts: bool, pairs: u64) -> u64 {
    if counts { pairs } else { 0 }
}

// The elements that the start claims where it passes: 8 pairs, or 130 where the domain has 65 columns.
fn claimed(lie: Lie, first: bool, second: bool) -> u64 {
    let pairs = match lie {
        Lie::Apart => 8,
        Lie::Outside => 130,
        Lie::Together => 8,
    };
    std::num::wrapping_add_u64(pairs_if(first, pairs), pairs_if(second, pairs))
}

fn is(came: Came, first: u32, runs: u64, claims: u64) -> bool {
    came.first == first && (came.runs == runs && came.claims == claims)
}

fn trial(lie: Lie, code: u32, n: u32, nibble: u32, others: bool) -> bool {
    let came = come(&words_of(lie, code, n, mask_of(n, nibble, others)));
    let first = heard(code, nibble);
    let number = earned(lie, first, others);
    if number == 0 {
        is(came, 0, 1, claimed(lie, first, others))
    } else {
        is(came, number, 0, 0)
    }
}

fn nibbles(lie: Lie, code: u32, n: u32) -> Tally {
    let mut t = Tally::new();
    for nibble in 0..16 {
        t = t.with(trial(lie, code, n, nibble, false));
        t = t.with(trial(lie, code, n, nibble, true));
    }
    t
}

// The four outputs, each under 16 nibbles, the others masked or not.
fn outputs(lie: Lie, code: u32) -> Tally {
    let t = nibbles(lie, code, 0).and(nibbles(lie, code, 1));
    t.and(nibbles(lie, code, 2)).and(nibbles(lie, code, 3))
}

fn codes(lie: Lie) -> Tally {
    let t = outputs(lie, 0).and(outputs(lie, 1));
    let t = t.and(outputs(lie, 2)).and(outputs(lie, 3));
    t.and(outputs(lie, 4))
}

// Outputs 0 and 1 on the same bytes, UINT16_1 and UINT8_4, under a mask, and a domain to this last column.
fn under(mask: u32, last: u32) -> [u32; 22] {
    let mut words = words_of(Lie::Together, 0, 0, mask);
    words[18] = last;
    words
}

// Both silent, also with a domain outside both and with mask bits of channels and outputs that aren't there: a run of no
// elements. With one bit of a channel that output 0 has, a domain outside it earns 8.
fn all_silent() -> Tally {
    let t = Tally::new().with(is(come(&under(0, 3)), 0, 1, 0));
    let t = t.with(is(come(&under(0xFF0E, 3)), 0, 1, 0));
    let t = t.with(is(come(&under(0xFF0E, 4095)), 0, 1, 0));
    t.with(is(come(&under(0xFF0F, 4095)), 8, 0, 0))
}

// "7 is as before": whatever the mask, it comes where no output is set, and not where one is.
fn none_set(mask: u32) -> bool {
    let words: [u32; 12] = [
        0xC0010A00, 0x1000, 0x4000010, 0xC0001900, mask, 0xC0030700, 0, 0, 3, 1, 0xC0000800, 0,
    ];
    is(come(&words), 7, 0, 0)
}

// One output, and three starts: under the mask of a new session, under 0, and under 1, set by words before each.
fn changing() -> bool {
    let words: [u32; 23] = [
        0xC0010A00, 0x1000, 0x4000010, 0xC0030C00, 0, 0x800, 0x2000040, 4, 0xC0030700, 0, 0, 3, 1,
        0xC0000800, 0, 0xC0001900, 0, 0xC0000800, 0, 0xC0001900, 1, 0xC0000800, 0,
    ];
    is(come(&words), 0, 3, 16)
}

pub fn run(rt: &impl Print) -> io::Result<()> {
    outputs(Lie::Apart, 0).print(rt, "code 0, one channel, each output under each nibble")?;
    outputs(Lie::Apart, 1).print(rt, "code 1, four channels, each output under each nibble")?;
    outputs(Lie::Apart, 2).print(rt, "code 2, one channel, each output under each nibble")?;
    outputs(Lie::Apart, 3).print(rt, "code 3, two channels, each output under each nibble")?;
    outputs(Lie::Apart, 4).print(rt, "code 4, four channels, each output under each nibble")?;
    codes(Lie::Outside).print(rt, "a domain outside an output: 8, or the output is silent")?;
    codes(Lie::Together).print(rt, "two outputs on the same bytes: 9, or one is silent")?;
    all_silent().print(rt, "every output silent")?;
    let t = Tally::new().with(none_set(0)).with(none_set(65535));
    t.print(rt, "no output set: 7 under any mask")?;
    Tally::new()
        .with(changing())
        .print(rt, "three starts under three masks")
}
