// Addresses: a pair of a window to the address of its element and the run from there on, and any byte address back to the pair
// that owns the byte and the byte's place in the element. `translate` answers address and run or 3, 6, 10; `locate` the pair or
// 3, 6, 12.
#![tactic(auto)]

pub mod block;
pub mod offset;
pub mod owner;
pub mod run;

ghost use Rattle.std.specs.Prelude.{◌≡◌, true, false};
ghost use Rattle.layout.specs.Layout.{well_formed};
ghost use Rattle.address.specs.Address.{translate_of, locate_of, layout_of, told_number, told_translated, told_located};

use layout::{ByteAddress, Layout};
use refusal::Refusal;

// A translation's answer is inside one number, which stays in a register: the address, and the run counted in 2^32 above it; or
// 2^63 and a refusal's number, above every answer.
pub const RUN_UNIT: u64 = 0x1_0000_0000;

pub const REFUSED: u64 = 0x8000_0000_0000_0000;

const MALFORMED: u64 = REFUSED + 3;

const WINDOW_RULE: u64 = REFUSED + 6;

const PAIR_OUTSIDE: u64 = REFUSED + 10;

// No row step is above 4,096.
const STEP_MOST: u32 = 4096;

// Bases are multiples of 2,048, pitches multiples of 4 below 8,192.
const BASE_UNIT: u32 = 2048;

const PITCH_UNIT: u32 = 4;

const PITCH_END: u32 = 8192;

// Where a pair's element begins and how many elements of its row, from this one on, lie at consecutive addresses; or the refusal.
#[derive(Drop)]
pub enum Translated {
    At { address: ByteAddress, run: u32 },
    Refused(Refusal),
}

// The pair that owns a byte and the byte's place in its element, or the refusal.
#[derive(Drop)]
pub enum Located {
    Pair { x: u32, y: u32, place: u32 },
    Refused(Refusal),
}

// Whether base and pitch are what a layout may have, whatever its size: `layout::well_formed` at size 1, with one test for the
// pitch's multiple and its bound.
fn formed(base: u32, pitch: u32) -> bool
    ensures { result ≡ well_formed base pitch 1 }
{
    if base % BASE_UNIT != 0 {
        return false;
    }
    pitch % PITCH_END / PITCH_UNIT * PITCH_UNIT == pitch
}

// A translation's answer as one number, for a well-formed layout. Where size and kind are constants, every division below is one
// by a constant.
fn sized(base: u32, pitch: u32, height: u32, size: u32, tiled: bool, x: u32, y: u32) -> u64
    requires { well_formed base pitch size ≡ true }
    ensures { told_number result ≡ translate_of (layout_of base pitch height size tiled) x y }
{
    let stride = layout::window_stride(base, pitch, height, size, tiled);
    if stride < 1 {
        return WINDOW_RULE;
    }
    // up to the greatest row step the product can't wrap
    if STEP_MOST < x {
        return PAIR_OUTSIDE;
    }
    if stride <= x * size {
        return PAIR_OUTSIDE;
    }
    if height <= y {
        return PAIR_OUTSIDE;
    }
    let offset = offset::offset(tiled, size, stride, x, y);
    let run = run::run_from(tiled, size, stride, x);
    run as u64 * RUN_UNIT + (base + offset) as u64
}

// The answer of a linear layout, given by its numbers.
pub fn linear_number(base: u32, pitch: u32, height: u32, size: u32, x: u32, y: u32) -> u64
    ensures { told_number result ≡ translate_of (layout_of base pitch height size false) x y }
{
    if !formed(base, pitch) {
        return MALFORMED;
    }
    if !layout::is_size(size) {
        return MALFORMED;
    }
    sized(base, pitch, height, size, false, x, y)
}

// The answers of the five tiled kinds. Each is a function of its own so that the compiler expands the offset in it: it doesn't
// expand a call that it takes for a rare one, and behind the tests and the branch of `tiled_number` it takes each arm's for that.
fn tiled_1(base: u32, pitch: u32, height: u32, x: u32, y: u32) -> u64
    requires { well_formed base pitch 1 ≡ true }
    ensures { told_number result ≡ translate_of (layout_of base pitch height 1 true) x y }
{
    sized(base, pitch, height, 1, true, x, y)
}

fn tiled_2(base: u32, pitch: u32, height: u32, x: u32, y: u32) -> u64
    requires { well_formed base pitch 2 ≡ true }
    ensures { told_number result ≡ translate_of (layout_of base pitch height 2 true) x y }
{
    sized(base, pitch, height, 2, true, x, y)
}

fn tiled_4(base: u32, pitch: u32, height: u32, x: u32, y: u32) -> u64
    requires { well_formed base pitch 4 ≡ true }
    ensures { told_number result ≡ translate_of (layout_of base pitch height 4 true) x y }
{
    sized(base, pitch, height, 4, true, x, y)
}

fn tiled_8(base: u32, pitch: u32, height: u32, x: u32, y: u32) -> u64
    requires { well_formed base pitch 8 ≡ true }
    ensures { told_number result ≡ translate_of (layout_of base pitch height 8 true) x y }
{
    sized(base, pitch, height, 8, true, x, y)
}

fn tiled_16(base: u32, pitch: u32, height: u32, x: u32, y: u32) -> u64
    requires { well_formed base pitch 16 ≡ true }
    ensures { told_number result ≡ translate_of (layout_of base pitch height 16 true) x y }
{
    sized(base, pitch, height, 16, true, x, y)
}

// The answer of a tiled layout, given by its numbers, with one branch on the size.
pub fn tiled_number(base: u32, pitch: u32, height: u32, size: u32, x: u32, y: u32) -> u64
    ensures { told_number result ≡ translate_of (layout_of base pitch height size true) x y }
{
    if !formed(base, pitch) {
        return MALFORMED;
    }
    match size {
        1 => tiled_1(base, pitch, height, x, y),
        2 => tiled_2(base, pitch, height, x, y),
        4 => tiled_4(base, pitch, height, x, y),
        8 => tiled_8(base, pitch, height, x, y),
        16 => tiled_16(base, pitch, height, x, y),
        _ => MALFORMED,
    }
}

// The answer of either kind of layout.
pub fn translate_numbers(
    base: u32,
    pitch: u32,
    height: u32,
    size: u32,
    tiled: bool,
    x: u32,
    y: u32,
) -> u64
    ensures { told_number result ≡ translate_of (layout_of base pitch height size tiled) x y }
{
    if tiled {
        tiled_number(base, pitch, height, size, x, y)
    } else {
        linear_number(base, pitch, height, size, x, y)
    }
}

// The address of the element at (x, y) and the run from there on, or 3 and 6 for a layout that isn't accepted, or 10 for a pair
// outside its window.
pub fn translate(layout: Layout, x: u32, y: u32) -> Translated
    ensures { told_translated result ≡ translate_of layout x y }
{
    let number = translate_numbers(
        layout.base.0,
        layout.pitch,
        layout.height,
        layout.size,
        layout.tiled,
        x,
        y,
    );
    if number < REFUSED {
        return Translated::At {
            address: ByteAddress((number % RUN_UNIT) as u32),
            run: (number / RUN_UNIT) as u32,
        };
    }
    match number {
        MALFORMED => Translated::Refused(Refusal::Malformed),
        WINDOW_RULE => Translated::Refused(Refusal::WindowRule),
        _ => Translated::Refused(Refusal::PairOutside),
    }
}

// The pair that owns the byte at an address and the byte's place in its element, or 3 and 6 for a layout that isn't
// accepted, or 12 where no pair of the window owns the byte.
pub fn locate(layout: Layout, address: ByteAddress) -> Located
    ensures { told_located result ≡ locate_of layout address.0 }
{
    let mut room = [0; owner::NUMBERS];
    let status = owner::locate(
        layout.base.0,
        layout.pitch,
        layout.height,
        layout.size,
        layout.tiled,
        address.0,
        &mut room,
    );
    match status {
        0 => Located::Pair {
            x: room[0],
            y: room[1],
            place: room[2],
        },
        3 => Located::Refused(Refusal::Malformed),
        6 => Located::Refused(Refusal::WindowRule),
        _ => Located::Refused(Refusal::Unowned),
    }
}
