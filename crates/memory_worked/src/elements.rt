// Elements in lent memory: windows written pair by pair and read back, memory of every length and place that decides, data
// of every wrong length, and superfine reads.
use address::{Located, Translated};
use layout::{ByteAddress, Judged, Layout};
use memory::{Answer, Reading, Written};
use std::io;
use worked::tally::Tally;
use worked::windows::{linear, tiled, window_of};

// Byte k of what these tests write at (x, y).
fn value(x: u32, y: u32, k: usize) -> u8 {
    ((x as usize % 256 * 7 + y as usize % 256 * 13 + k % 16 * 31 + 1) % 256) as u8
}

// What memory has before it is written, so that a byte that changed shows.
fn pattern(k: usize) -> u8 {
    (k % 1999 * 7 / 5 % 256) as u8
}

fn fill(memory: &mut [u8]) {
    for k in 0..memory.len() {
        memory[k] = pattern(k);
    }
}

fn element(x: u32, y: u32) -> [u8; 16] {
    let mut bytes = [0u8; 16];
    for k in 0..16 {
        bytes[k] = value(x, y, k);
    }
    bytes
}

// What a memory at `first` of `length` bytes must make of a pair's element: 0 where it holds it, or the number.
fn expected(layout: Layout, x: u32, y: u32, first: u32, length: usize) -> u32 {
    match address::translate(layout, x, y) {
        Translated::Refused(why) => u32::from(why),
        Translated::At { address, run: _ } => {
            if 65536 < length {
                return 11;
            }
            let begin = first as u64;
            let end = begin + length as u64;
            let at = address.0 as u64;
            let held = end <= 4294967296 && (begin <= at && at + layout.size as u64 <= end);
            if held { 0 } else { 11 }
        }
    }
}

fn number(w: Written) -> u32 {
    match w {
        Written::Done => 0,
        Written::Refused(why) => u32::from(why),
    }
}

// Whether a reading has just these bytes, or refuses with the number and has none.
fn reads(r: Reading, wanted: u32, bytes: [u8; 16], size: usize) -> bool {
    let got = r.bytes;
    let answer = r.answer;
    match answer {
        Answer::Bytes(n) => wanted == 0 && (n == size && same(got, bytes, n)),
        Answer::Refused(why) => u32::from(why) == wanted && same(got, [0; 16], 16),
    }
}

// Whether the first n bytes agree, and the others of the first are 0.
fn same(got: [u8; 16], bytes: [u8; 16], n: usize) -> bool {
    let mut agree = true;
    for k in 0..16 {
        let wanted = if k < n { bytes[k] } else { 0 };
        if got[k] != wanted {
            agree = false;
        }
    }
    agree
}

// Writes a pair's element and reads it again.
fn pair(layout: Layout, x: u32, y: u32, memory: &mut [u8], first: u32) -> Tally {
    let size = layout.size as usize;
    let wanted = expected(layout, x, y, first, memory.len());
    let bytes = element(x, y);
    if 16 < size {
        return Tally::new().with(false);
    }
    let told = number(memory::write(layout, x, y, memory, ByteAddress(first), &bytes[0..size]));
    Tally::new().with(told == wanted)
}

// Reads a pair's element after the whole window was written.
fn pair_again(layout: Layout, x: u32, y: u32, memory: &[u8], first: u32) -> Tally {
    let wanted = expected(layout, x, y, first, memory.len());
    let got = memory::read(layout, x, y, memory, ByteAddress(first));
    Tally::new().with(reads(got, wanted, element(x, y), layout.size as usize))
}

fn row(layout: Layout, y: u32, step: u32, memory: &mut [u8], first: u32) -> Tally {
    let mut t = Tally::new();
    for x in 0..step {
        t = t.and(pair(layout, x, y, memory, first));
    }
    t
}

fn rows(layout: Layout, step: u32, memory: &mut [u8], first: u32) -> Tally {
    let mut t = Tally::new();
    for y in 0..layout.height {
        t = t.and(row(layout, y, step, memory, first));
    }
    t
}

fn row_again(layout: Layout, y: u32, step: u32, memory: &[u8], first: u32) -> Tally {
    let mut t = Tally::new();
    for x in 0..step {
        t = t.and(pair_again(layout, x, y, memory, first));
    }
    t
}

fn rows_again(layout: Layout, step: u32, memory: &[u8], first: u32) -> Tally {
    let mut t = Tally::new();
    for y in 0..layout.height {
        t = t.and(row_again(layout, y, step, memory, first));
    }
    t
}

// Bytes that no pair owns are as they were.
fn untouched(layout: Layout, memory: &[u8], first: u32) -> Tally {
    let mut differed = 0u64;
    for k in 0..memory.len() {
        let at = std::num::wrapping_add_u32(first, (k % 65536) as u32);
        if let Located::Refused(_) = address::locate(layout, ByteAddress(at)) {
            if memory[k] != pattern(k) {
                differed = std::num::wrapping_add_u64(differed, 1);
            }
        }
    }
    Tally::new().with(differed == 0)
}

// A window in memory at a first address: every pair written, then every pair read.
fn written(layout: Layout, memory: &mut [u8], first: u32) -> Tally {
    fill(memory);
    match layout::judge(layout) {
        Judged::Accepted { step, span: _ } => {
            let t = rows(layout, step, memory, first);
            let t = t.and(rows_again(layout, step, memory, first));
            t.and(untouched(layout, memory, first))
        }
        Judged::Refused(_) => Tally::new().with(false),
    }
}

// The same in the first 65,536 bytes of a longer memory.
fn window(layout: Layout, memory: &mut [u8], first: u32) -> Tally {
    if memory.len() < 65536 {
        return Tally::new().with(false);
    }
    written(layout, &mut memory[0..65536], first)
}

// The windows of the address tests, which are up to 105,600 bytes long: memory 1,000 bytes below the base, and 1,001 above
// it, where it cuts elements in two.
fn windows(memory: &mut [u8]) -> Tally {
    let mut t = Tally::new();
    for k in 0..90 {
        let layout = window_of(k);
        t = t.and(window(layout, memory, 3096));
        t = t.and(window(layout, memory, 5097));
    }
    t
}

// The bytes of memory from a place on.
fn bytes_from(memory: &[u8], from: usize) -> [u8; 16] {
    let mut bytes = [0u8; 16];
    for k in 0..16 {
        let at = from % 65536 + k;
        bytes[k] = if at < memory.len() { memory[at] } else { 0 };
    }
    bytes
}

// A pair of a window and the memory that is lent for it.
#[derive(Drop)]
struct Trial {
    layout: Layout,
    x: u32,
    y: u32,
    first: u32,
    length: usize,
}

// Trial k of 5,040: each size and kind, at a low base and at the last 65,536 bytes; memory of lengths and places that decide;
// pairs inside, at the edges and outside.
fn trial_of(k: u32) -> Trial {
    let sizes: [u32; 5] = [1, 2, 4, 8, 16];
    let lengths: [usize; 7] = [0, 1, 15, 16, 65535, 65536, 65537];
    let firsts: [u32; 6] = [0, 2048, 2049, 4294901760, 4294901761, 4294967295];
    let xs: [u32; 6] = [0, 63, 64, 0, 5, 4294967295];
    let ys: [u32; 6] = [0, 1, 0, 2, 1, 0];
    let size = (k % 5) as usize;
    let length = (k / 20 % 7) as usize;
    let first = (k / 140 % 6) as usize;
    let pair = (k / 840 % 6) as usize;
    Trial {
        layout: Layout {
            base: ByteAddress(if k / 10 % 2 == 0 { 2048 } else { 4294901760 }),
            pitch: 64,
            height: 2,
            size: sizes[size],
            tiled: k / 5 % 2 == 0,
        },
        x: xs[pair],
        y: ys[pair],
        first: firsts[first],
        length: lengths[length],
    }
}

// A read, and writes of 0 to 17 bytes: all but the element's size get 11, after 3, 6 and 10.
fn lent(t: Trial, memory: &mut [u8]) -> Tally {
    let first = ByteAddress(t.first);
    let size = t.layout.size as usize;
    let wanted = expected(t.layout, t.x, t.y, t.first, memory.len());
    let mut from = 0;
    if let Translated::At { address, run: _ } = address::translate(t.layout, t.x, t.y) {
        from = std::num::wrapping_sub_u32(address.0, t.first);
    }
    let bytes = bytes_from(memory, from as usize);
    let got = memory::read(t.layout, t.x, t.y, memory, first);
    let mut all = Tally::new().with(reads(got, wanted, bytes, size));
    let given = [7u8; 17];
    for n in 0..18 {
        let told = number(memory::write(t.layout, t.x, t.y, memory, first, &given[0..n]));
        let due = if wanted == 0 && n != size { 11 } else { wanted };
        all = all.with(told == due);
    }
    all
}

// The same in the first bytes of a longer memory, as many as the trial says.
fn front(t: Trial, memory: &mut [u8]) -> Tally {
    let length = t.length;
    if memory.len() < length {
        return Tally::new().with(false);
    }
    lent(t, &mut memory[0..length])
}

fn trials(memory: &mut [u8]) -> Tally {
    let mut t = Tally::new();
    for k in 0..5040 {
        t = t.and(front(trial_of(k), memory));
    }
    t
}

// A superfine read's arguments: what a format word is made of, and a pair. Of each list below the first value is good.
#[derive(Clone, Copy)]
struct Fine {
    base: u32,
    pitch: u32,
    height: u32,
    code: u32,
    fine: bool,
    tiled: bool,
    x: u32,
    y: u32,
    first: u32,
}

fn fine_of(k: u32) -> Fine {
    let bases: [u32; 2] = [2048, 2049];
    let pitches: [u32; 3] = [64, 66, 0];
    let heights: [u32; 3] = [3, 0, 8192];
    let xs: [u32; 4] = [0, 62, 63, 4294967295];
    let ys: [u32; 4] = [0, 1, 2, 4294967295];
    let firsts: [u32; 2] = [2048, 2300];
    let base = (k / 32 % 2) as usize;
    let pitch = (k / 64 % 3) as usize;
    let height = (k / 192 % 3) as usize;
    let x = (k / 576 % 4) as usize;
    let y = (k / 2304 % 4) as usize;
    let first = (k / 9216 % 2) as usize;
    Fine {
        base: bases[base],
        pitch: pitches[pitch],
        height: heights[height],
        code: k % 8,
        fine: k / 8 % 2 == 0,
        tiled: k / 16 % 2 == 0,
        x: xs[x],
        y: ys[y],
        first: firsts[first],
    }
}

fn word(f: Fine) -> u32 {
    let kind = if f.tiled { 65536 } else { 0 };
    let superfine = if f.fine { 131072 } else { 0 };
    let flags = std::num::wrapping_add_u32(kind, superfine);
    let low = std::num::wrapping_add_u32(f.pitch, flags);
    std::num::wrapping_add_u32(low, f.code % 8 * 16777216)
}

// Of two answers' numbers the one that comes first in order; 0 is none.
fn sooner(a: u32, b: u32) -> u32 {
    if a == 0 {
        return b;
    }
    if b == 0 {
        return a;
    }
    if a < b { a } else { b }
}

// Whether a superfine read has the read of a pair from a place on.
fn channel(r: Reading, from: usize, size: usize, one: Reading) -> bool {
    let all = r.bytes;
    let part = one.bytes;
    let mut agree = true;
    for k in 0..4 {
        let at = from % 16 + k;
        if k < size && at < 16 {
            if all[at] != part[k] {
                agree = false;
            }
        }
    }
    agree
}

// Four plain reads side by side with the superfine read.
fn channels(layout: Layout, f: Fine, memory: &[u8], r: Reading) -> bool {
    let first = ByteAddress(f.first);
    let size = layout.size as usize;
    let third = size * 2;
    let fourth = size * 3;
    let x = std::num::wrapping_add_u32(f.x, 1);
    let y = std::num::wrapping_add_u32(f.y, 1);
    let right = memory::read(layout, x, f.y, memory, first);
    let below = memory::read(layout, f.x, y, memory, first);
    let across = memory::read(layout, x, y, memory, first);
    let own = memory::read(layout, f.x, f.y, memory, first);
    let front = channel(r, 0, size, right) && channel(r, size, size, below);
    front && (channel(r, third, size, across) && channel(r, fourth, size, own))
}

fn four_expected(layout: Layout, f: Fine, length: usize) -> u32 {
    if let Judged::Refused(why) = layout::judge(layout) {
        return u32::from(why);
    }
    if f.x == 4294967295 || f.y == 4294967295 {
        return 10;
    }
    let x = std::num::wrapping_add_u32(f.x, 1);
    let y = std::num::wrapping_add_u32(f.y, 1);
    let right = expected(layout, x, f.y, f.first, length);
    let below = expected(layout, f.x, y, f.first, length);
    let across = expected(layout, x, y, f.first, length);
    let own = expected(layout, f.x, f.y, f.first, length);
    sooner(sooner(right, below), sooner(across, own))
}

fn superfine(f: Fine, memory: &[u8]) -> bool {
    let r = superfine::superfine(
        ByteAddress(f.base),
        word(f),
        f.height,
        f.x,
        f.y,
        memory,
        ByteAddress(f.first),
    );
    let one_channel = f.code == 0 || f.code == 2;
    if !one_channel || (!f.fine || (f.base != 2048 || f.pitch == 66)) {
        return reads(r, 3, [0; 16], 0);
    }
    let size = if f.code == 0 { 2 } else { 4 };
    let layout = if f.tiled {
        tiled(size, f.base, f.pitch, f.height)
    } else {
        linear(size, f.base, f.pitch, f.height)
    };
    let wanted = four_expected(layout, f, memory.len());
    let answer = r.answer;
    match answer {
        Answer::Bytes(n) => wanted == 0
            && (n == size as usize * 4 && channels(layout, f, memory, r)),
        Answer::Refused(_) => reads(r, wanted, [0; 16], 0),
    }
}

// In the first 2,000 bytes of a longer memory.
fn superfines(memory: &[u8]) -> Tally {
    let mut t = Tally::new();
    if memory.len() < 2000 {
        return t.with(false);
    }
    let front = &memory[0..2000];
    for k in 0..18432 {
        t = t.with(superfine(fine_of(k), front));
    }
    t
}

// One memory for all of them.
pub fn run(rt: &impl Print) -> io::Result<()> {
    let mut memory = [0u8; 65537];
    windows(&mut memory).print(rt, "elements written and read")?;
    trials(&mut memory).print(rt, "memory and data of every length")?;
    fill(&mut memory);
    superfines(&memory).print(rt, "superfine reads")
}
