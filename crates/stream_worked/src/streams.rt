// Streams: document 01's whole stream in one piece, word by word and at every cut; each refusal by a stream that earns it;
// every bit of every parameter flipped alone; and the limit of words.
use command::commands::Command;
use refusal::Refusal;
use session::stream;
use state::{edition, own};
use std::io;
use worked::streams::whole_stream;
use worked::tally::Tally;

// What a stream came to: the words taken, the commands, the first refusal's number and that of one word more (0: none),
// and the tallies after all of them.
// Kept (design pass 1, no plainer): the numbers that a test expects are the document's own, and are compared as such.
#[derive(Drop)]
struct Came {
    taken: u32,
    commands: u64,
    first: u32,
    next: u32,
    runs: u64,
    claims: u64,
}

// A refusal's number, 0 for none.
fn number(refusal: Option<Refusal>) -> u32 {
    match refusal {
        None => 0,
        Some(why) => u32::from(why),
    }
}

// What one word is answered: 0 for a word that was taken.
fn number_of(answer: Result<Option<Command>, Refusal>) -> u32 {
    number(answer.err())
}

// A stream word by word from a new session, and a wait_for_idle after it.
fn by_word(words: &[u32]) -> Came {
    let mut own: [u32; state::OWN_CELLS] = [0; state::OWN_CELLS];
    let mut tallies: [u64; state::TALLIES] = [0; state::TALLIES];
    let mut shared: [u32; state::SHARED_CELLS] = [0; state::SHARED_CELLS];
    let _ = stream::begin(&mut own, &mut tallies, &mut shared, edition::BY_OUTPUT);
    let mut first: Option<Refusal> = None;
    let mut commands: u64 = 0;
    for i in 0..words.len() {
        match stream::word(&mut own, &mut tallies, &mut shared, words[i]) {
            Ok(None) => {}
            Ok(Some(_)) => {
                commands = std::num::wrapping_add_u64(commands, 1);
            }
            Err(why) => {
                first = first.or(Some(why));
            }
        }
    }
    let taken = own[own::TAKEN];
    let next = number_of(stream::word(&mut own, &mut tallies, &mut shared, 0xC0000900));
    Came {
        taken,
        commands,
        first: number(first),
        next,
        runs: tallies[0],
        claims: tallies[1],
    }
}

// A stream in two pieces, cut after `cut` words, and a wait_for_idle after it. A cut past the end is none.
fn in_two(words: &[u32], cut: usize) -> Came {
    if cut > words.len() {
        return by_word(words);
    }
    let mut own: [u32; state::OWN_CELLS] = [0; state::OWN_CELLS];
    let mut tallies: [u64; state::TALLIES] = [0; state::TALLIES];
    let mut shared: [u32; state::SHARED_CELLS] = [0; state::SHARED_CELLS];
    let _ = stream::begin(&mut own, &mut tallies, &mut shared, edition::BY_OUTPUT);
    let a = stream::feed(&mut own, &mut tallies, &mut shared, &words[..cut]);
    let b = stream::feed(&mut own, &mut tallies, &mut shared, &words[cut..]);
    let taken = own[own::TAKEN];
    let next = number_of(stream::word(&mut own, &mut tallies, &mut shared, 0xC0000900));
    Came {
        taken,
        commands: std::num::wrapping_add_u64(a.commands, b.commands),
        first: number(a.refusal.or(b.refusal)),
        next,
        runs: tallies[0],
        claims: tallies[1],
    }
}

// Fifteen words, four commands, one run, 1,728 elements; and the next word is taken.
fn is_whole(came: Came) -> bool {
    let words = came.taken == 15 && came.commands == 4;
    let tallies = came.runs == 1 && came.claims == 1728;
    let numbers = came.first == 0 && came.next == 0;
    words && (tallies && numbers)
}

fn whole() -> Tally {
    let words = whole_stream();
    let mut t = Tally::new().with(is_whole(by_word(&words)));
    for cut in 0..16 {
        t = t.with(is_whole(in_two(&words, cut)));
    }
    t
}

fn same(a: Came, b: Came) -> bool {
    let words = a.taken == b.taken && a.commands == b.commands;
    let tallies = a.runs == b.runs && a.claims == b.claims;
    let numbers = a.first == b.first && a.next == b.next;
    words && (tallies && numbers)
}

// Whether all words but the last are taken, the last gets this number, and the word after it gets 1; word by word and in
// one piece.
fn earns(words: &[u32], number: u32) -> bool {
    let came = by_word(words);
    let all_but_one = std::num::wrapping_add_u64(came.taken as u64, 1) == words.len() as u64;
    let numbers = came.first == number && came.next == 1;
    all_but_one && (numbers && same(came, in_two(words, 0)))
}

// The house words stand in no line, nor does a known operation with another count or a low byte.
fn unknown() -> Tally {
    let house: [u32; 1] = [0xC0038000];
    let other_house: [u32; 1] = [0xC0008100];
    let count: [u32; 1] = [0xC0010900];
    let low: [u32; 1] = [0xC0000901];
    let zero: [u32; 1] = [0];
    let ones: [u32; 1] = [0xFFFFFFFF];
    let second: [u32; 3] = [0xC0000900, 0, 0xC0000701];
    let t = Tally::new()
        .with(earns(&house, 2))
        .with(earns(&other_house, 2));
    let t = t.with(earns(&count, 2)).with(earns(&low, 2));
    let t = t.with(earns(&zero, 2)).with(earns(&ones, 2));
    t.with(earns(&second, 2))
}

// Reserved bits and codes, at the word at fault: a start's parameter before 7. A superfine input of four channels too.
fn malformed() -> Tally {
    let base: [u32; 2] = [0xC0010A00, 1];
    let bit: [u32; 3] = [0xC0010A00, 0x1000, 0x4000011];
    let code: [u32; 3] = [0xC0010A00, 0x1000, 0x5000010];
    let start: [u32; 2] = [0xC0000800, 1];
    let idle: [u32; 2] = [0xC0000900, 1];
    let superfine: [u32; 4] = [0xC0030B00, 0, 0x800, 0x1020040];
    let coordinate: [u32; 2] = [0xC0030700, 0x1000];
    let mask: [u32; 2] = [0xC0001900, 0x10000];
    let t = Tally::new().with(earns(&base, 3)).with(earns(&bit, 3));
    let t = t.with(earns(&code, 3)).with(earns(&start, 3));
    let t = t.with(earns(&idle, 3)).with(earns(&superfine, 3));
    t.with(earns(&coordinate, 3)).with(earns(&mask, 3))
}

// A number is the whole word.
fn too_high() -> Tally {
    let input: [u32; 2] = [0xC0030B00, 16];
    let ones: [u32; 2] = [0xC0030B00, 0xFFFFFFFF];
    let output: [u32; 2] = [0xC0030C00, 4];
    let output_ones: [u32; 2] = [0xC0030C00, 0xFFFFFFFF];
    let t = Tally::new().with(earns(&input, 4)).with(earns(&ones, 4));
    t.with(earns(&output, 4)).with(earns(&output_ones, 4))
}

fn crossed() -> Tally {
    let columns: [u32; 5] = [0xC0030700, 2, 0, 1, 5];
    let rows: [u32; 5] = [0xC0030700, 0, 6, 1, 5];
    Tally::new().with(earns(&columns, 5)).with(earns(&rows, 5))
}

// Pitch 28 tiled has row step 0: refused at the height word. Instructions have height 1 and are refused at the format word.
fn broken() -> Tally {
    let pitch: [u32; 5] = [0xC0030C00, 0, 0, 0x201001C, 1];
    let height: [u32; 5] = [0xC0030B00, 15, 0, 0x2010064, 0];
    let end: [u32; 4] = [0xC0020D00, 0xFFFFF800, 0x2000008, 65];
    let instructions: [u32; 3] = [0xC0010A00, 0, 0x4000000];
    let t = Tally::new().with(earns(&pitch, 6)).with(earns(&height, 6));
    t.with(earns(&end, 6)).with(earns(&instructions, 6))
}

// Nothing set; then the whole stream with its domain, its instruction format or its output left out.
fn unset() -> Tally {
    let nothing: [u32; 2] = [0xC0000800, 0];
    let no_domain: [u32; 10] = [
        0xC0010A00, 0x1000, 0x4000010, 0xC0030C00, 0, 0x800, 0x2010064, 0x12, 0xC0000800, 0,
    ];
    let whole = whole_stream();
    let no_output: [u32; 10] = [
        0xC0010A00, 0x1000, 0x4000010, 0xC0030700, 0, 0, 0x5F, 0x11, 0xC0000800, 0,
    ];
    let t = Tally::new()
        .with(earns(&nothing, 7))
        .with(earns(&no_domain, 7));
    t.with(earns(&whole[3..], 7)).with(earns(&no_output, 7))
}

// The whole stream with a domain that reaches these ends.
fn reaching(i1: u32, j1: u32) -> [u32; 15] {
    let mut words = whole_stream();
    words[11] = i1;
    words[12] = j1;
    words
}

// One column and one row past the window of 96 by 18.
fn outside() -> Tally {
    let column = reaching(0x60, 0x11);
    let row = reaching(0x5F, 0x12);
    Tally::new().with(earns(&column, 8)).with(earns(&row, 8))
}

// Two outputs: the first from 800 to 3800 (hex), the second from a base of its own.
fn two_outputs(number: u32, base: u32) -> [u32; 20] {
    let words: [u32; 20] = [
        0xC0010A00, 0x1000, 0x4000010, 0xC0030C00, 0, 0x800, 0x2010064, 0x12, 0xC0030C00, number,
        base, 0x2010064, 0x12, 0xC0030700, 0, 0, 0x5F, 0x11, 0xC0000800, 0,
    ];
    words
}

// Spans that share bytes get 9, with one base or with two; spans that only touch pass, and each is claimed.
fn overlapping() -> Tally {
    let one_base = two_outputs(1, 0x800);
    let above = two_outputs(3, 0x3000);
    let below = two_outputs(2, 0);
    let touching = two_outputs(1, 0x3800);
    let t = Tally::new()
        .with(earns(&one_base, 9))
        .with(earns(&above, 9));
    let t = t.with(earns(&below, 9));
    let came = by_word(&touching);
    let passed = came.first == 0 && (came.runs == 1 && came.claims == 3456);
    t.with(passed)
}

// What was taken, run and claimed before a refusal stands after it: the whole stream, and a word that no command has as its
// header.
fn standing() -> Tally {
    let w = whole_stream();
    let words: [u32; 16] = [
        w[0], w[1], w[2], w[3], w[4], w[5], w[6], w[7], w[8], w[9], w[10], w[11], w[12], w[13],
        w[14], 0xC0038000,
    ];
    let came = by_word(&words);
    let tallies = came.runs == 1 && came.claims == 1728;
    Tally::new()
        .with(earns(&words, 2))
        .with(came.taken == 15 && came.commands == 4)
        .with(tallies)
}

// Whether bit b of a word is set.
fn has(word: u32, b: u32) -> bool {
    word >> (b % 32) & 1 == 1
}

fn flip(word: u32, b: u32) -> u32 {
    word ^ 1 << (b % 32)
}

// What word k of the whole stream earns with its bit b flipped, from the paper: 0 where it is accepted, 1 for a header,
// which isn't flipped. Each mask has the bits of its word that earn its number.
fn flip_earns(k: u32, b: u32) -> u32 {
    let threes: [u32; 15] = [
        0, 0x7FF, 0xFBFCE003, 0, 0, 0x7FF, 0xFCFCE003, 0xFFFFE000, 0, 0xFFFFF000, 0xFFFFF000,
        0xFFFFF000, 0xFFFFF000, 0, 0xFFFFFFFF,
    ];
    let fives: [u32; 15] = [0, 0, 0, 0, 0, 0, 0, 0, 0, 0xF80, 0xFE0, 0, 0, 0, 0];
    let sixes: [u32; 15] = [0, 0, 0x1010, 0, 0, 0, 0x1000, 0x1000, 0, 0, 0, 0, 0, 0, 0];
    let eights: [u32; 15] = [0, 0, 0, 0, 0, 0, 0x60, 0x12, 0, 0, 0, 0xFA0, 0xFEE, 0, 0];
    let at = (k % 15) as usize;
    if at == 0 || (at == 3 || (at == 8 || at == 13)) {
        return 1;
    }
    if at == 4 && b >= 2 {
        return 4;
    }
    if has(threes[at], b) {
        return 3;
    }
    if has(fives[at], b) {
        return 5;
    }
    if has(sixes[at], b) {
        return 6;
    }
    if has(eights[at], b) { 8 } else { 0 }
}

// The words taken: up to the word at fault for 3 and 4, to its command's last for 5 and 6, to the start's last for 8.
fn flip_takes(k: u32, number: u32) -> u32 {
    match number {
        0 => 15,
        3 => k,
        4 => k,
        5 => 12,
        6 => { if k < 3 { 2 } else { 7 } }
        _ => 14,
    }
}

// One flip, if it is one of those that earn this number.
fn flipped(k: u32, b: u32, number: u32) -> Tally {
    let t = Tally::new();
    if flip_earns(k, b) != number {
        return t;
    }
    let mut words = whole_stream();
    let at = (k % 15) as usize;
    words[at] = flip(words[at], b);
    let came = by_word(&words);
    t.with(came.first == number && came.taken == flip_takes(k, number))
}

fn flips_of(k: u32, number: u32) -> Tally {
    let mut t = Tally::new();
    for b in 0..32 {
        t = t.and(flipped(k, b, number));
    }
    t
}

fn flips(number: u32) -> Tally {
    let mut t = Tally::new();
    for k in 0..15 {
        t = t.and(flips_of(k, number));
    }
    t
}

// A session takes 1,000,000,000 words of wait_for_idle, in pieces of 8; the next gets 17 before it is looked at, and the
// one after that 1.
fn limit() -> Tally {
    let words: [u32; 8] = [0xC0000900, 0, 0xC0000900, 0, 0xC0000900, 0, 0xC0000900, 0];
    let mut own: [u32; state::OWN_CELLS] = [0; state::OWN_CELLS];
    let mut tallies: [u64; state::TALLIES] = [0; state::TALLIES];
    let mut shared: [u32; state::SHARED_CELLS] = [0; state::SHARED_CELLS];
    let _ = stream::begin(&mut own, &mut tallies, &mut shared, edition::BY_OUTPUT);
    let mut taken: u64 = 0;
    let mut commands: u64 = 0;
    for k in 0u32..125000000 {
        let fed = stream::feed(&mut own, &mut tallies, &mut shared, &words);
        taken = std::num::wrapping_add_u64(taken, fed.taken.0);
        commands = std::num::wrapping_add_u64(commands, fed.commands);
    }
    let t = Tally::new()
        .with(taken == 1000000000)
        .with(commands == 500000000);
    let full = number_of(stream::word(&mut own, &mut tallies, &mut shared, 0xC0038000));
    let after = number_of(stream::word(&mut own, &mut tallies, &mut shared, 0xC0000900));
    t.with(full == 17)
        .with(after == 1)
        .with(own[own::TAKEN] == 1000000000)
}

pub fn run(rt: &impl Print) -> io::Result<()> {
    whole().print(rt, "the whole stream, word by word and at every cut")?;
    unknown().print(rt, "streams that earn 2, then 1")?;
    malformed().print(rt, "streams that earn 3, then 1")?;
    too_high().print(rt, "streams that earn 4, then 1")?;
    crossed().print(rt, "streams that earn 5, then 1")?;
    broken().print(rt, "streams that earn 6, then 1")?;
    unset().print(rt, "streams that earn 7, then 1")?;
    outside().print(rt, "streams that earn 8, then 1")?;
    overlapping().print(rt, "streams that earn 9, then 1, and one that doesn't")?;
    standing().print(rt, "what stands after a refusal")?;
    flips(0).print(rt, "flipped bits that are accepted")?;
    flips(3).print(rt, "flipped bits that earn 3")?;
    flips(4).print(rt, "flipped bits that earn 4")?;
    flips(5).print(rt, "flipped bits that earn 5")?;
    flips(6).print(rt, "flipped bits that earn 6")?;
    flips(8).print(rt, "flipped bits that earn 8")?;
    limit().print(rt, "a session at its limit of words")
}
