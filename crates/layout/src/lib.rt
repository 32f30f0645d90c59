// Layouts: the five element sizes with their tiles, the row step, the span and the window rule of document 01. A layout
// is accepted, with its row step and span, or refused with 3 (malformed) or 6 (window rule).
#![tactic(auto)]

ghost use Rattle.std.specs.Prelude.{◌≡◌, true, ◌*◌, ◌/◌, ◌^◌, ◌≤◌};
ghost use Rattle.laws.specs.Choice.{pick};
ghost use Rattle.layout.specs.Sizes.{is_size, width_of, height_of};
ghost use Rattle.layout.specs.Powers.{power_at, Powers};
ghost use Rattle.layout.specs.Layout.{well_formed, unit_of, row_step, rows_taken, stride_of, judge_of, told_judged};
ghost use Rattle.layout.specs.Asked.{StrideAsked};

use refusal::Refusal;

// The address of a byte: one of document 01's three kinds of number, never a word's position or a slot number.
#[derive(Clone, Copy)]
pub struct ByteAddress(pub u32);

// How a window lies in memory, as the caller gives it; nothing is asked of the numbers.
#[derive(Clone, Copy)]
pub struct Layout {
    pub base: ByteAddress,
    // Elements from one row to the next, before the cut to the row step.
    pub pitch: u32,
    pub height: u32,
    // Bytes of an element.
    pub size: u32,
    pub tiled: bool,
}

// A layout's row step (document 01's E) and span, or the refusal.
#[derive(Drop)]
pub enum Judged {
    Accepted { step: u32, span: u32 },
    Refused(Refusal),
}

// Bases are multiples of 2,048, pitches of 4 and at most 8,188.
const BASE_UNIT: u32 = 2048;

const PITCH_UNIT: u32 = 4;

const PITCH_MOST: u32 = 8188;

// The greatest row step and the greatest height.
const SIDE_MOST: u32 = 4096;

// Linear rows are cut to whole units of 32 bytes, 2^5.
const LINEAR_UNIT: u32 = 32;

const LINEAR_UNIT_LOG: u32 = 5;

// The last byte address, 2^32 - 1.
const LAST_ADDRESS: u32 = 0xFFFF_FFFF;

// The greatest size, and a number that has just the bits 1, 2, 4, 8 and 16.
const SIZE_MOST: u32 = 16;

const SIZE_BITS: u32 = 0x1_0116;

// Powers of 2 in one number, an octal digit for each size: the digit of size s is digit s, counted from 0 at the right. The sizes
// of a stream can't be foretold, so no branch is taken on them: a shift reads the digit.
//
// What row steps are multiples of: a tile's width where tiled, else the elements in 32 bytes.
const TILED_STEPS: u64 = 0o40000000400050560;

const LINEAR_STEPS: u64 = 0o10000000200030450;

// What tiled strides are multiples of, the bytes of a tile's row, over 32.
const TILED_STRIDES: u64 = 0o30000000200020110;

// The rows of a tile.
const TILED_ROWS: u64 = 0o30000000400040550;

// 1, which is 2^0, at every size.
const ALL_ONE: u64 = 0;

// Whether a number is one of the five sizes.
pub fn is_size(size: u32) -> bool
    ensures { result ≡ is_size size }
{
    if SIZE_MOST < size {
        return false;
    }
    (SIZE_BITS >> size) % 2 == 1
}

// The width of a size's tile, from the table; 0 for what is no size.
fn tile_width(size: u32) -> u32
    ensures { result ≡ width_of size }
{
    let line = tables::size_line(size);
    if line < tables::SIZE_LINES {
        tables::tile_width_at(line)
    } else {
        0
    }
}

// The height of a size's tile, from the table; 0 for what is no size.
fn tile_height(size: u32) -> u32
    ensures { result ≡ height_of size }
{
    let line = tables::size_line(size);
    if line < tables::SIZE_LINES {
        tables::tile_height_at(line)
    } else {
        0
    }
}

// Whether base, pitch and size are what a layout may have: where they aren't, the layout gets 3.
pub fn well_formed(base: u32, pitch: u32, size: u32) -> bool
    ensures { result ≡ well_formed base pitch size }
{
    if base % BASE_UNIT != 0 {
        return false;
    }
    if pitch % PITCH_UNIT != 0 {
        return false;
    }
    if PITCH_MOST < pitch {
        return false;
    }
    is_size(size)
}

// The power of 2 that a number has for a size.
fn power_at(powers: u64, size: u32) -> u32
    requires { is_size size ≡ true }
    ensures { result ≡ power_at powers size }
{
    ((powers >> (3 * size)) % 8) as u32
}

// The powers of what row steps are multiples of.
fn step_logs(tiled: bool) -> u64
    ensures { Powers result (unit_of tiled) }
{
    if tiled { TILED_STEPS } else { LINEAR_STEPS }
}

// Document 01's row step E: the elements from one row to the next, cut down by shifts.
pub fn row_step(pitch: u32, size: u32, tiled: bool) -> u32
    requires { is_size size ≡ true }
    ensures { result ≡ row_step tiled size pitch }
{
    let log = power_at(step_logs(tiled), size);
    pitch >> log << log
}

// The powers of what strides are multiples of, over 32.
fn stride_logs(tiled: bool) -> u64
    ensures { Powers result (λ s. unit_of tiled s * s / 32) }
{
    if tiled { TILED_STRIDES } else { ALL_ONE }
}

// The power of what the strides of a size are multiples of.
fn stride_log(size: u32, tiled: bool) -> u32
    requires { is_size size ≡ true }
    ensures most { result ≤ 12 }
    ensures power { 2 ^ result ≡ unit_of tiled size * size }
{
    power_at(stride_logs(tiled), size) + LINEAR_UNIT_LOG
}

// The powers of what the rows of a window's bytes are multiples of: the rows of a tile, or 1.
fn rows_logs(tiled: bool) -> u64
    ensures { Powers result (λ s. pick tiled (height_of s) 1) }
{
    if tiled { TILED_ROWS } else { ALL_ONE }
}

// The power of what the rows of a window's bytes are a multiple of.
fn rows_log(size: u32, tiled: bool) -> u32
    requires { is_size size ≡ true }
    ensures most { result ≤ 7 }
    ensures power { 2 ^ result ≡ pick tiled (height_of size) 1 }
{
    power_at(rows_logs(tiled), size)
}

// The rows that a window's bytes make up: the height, filled up to whole tiles where tiled, by shifts.
pub fn rows_taken(height: u32, size: u32, tiled: bool) -> u32
    requires { (is_size size ≡ true) × (height ≤ 4096) }
    ensures { result ≡ rows_taken tiled size height }
{
    let log = rows_log(size, tiled);
    (height + ((1u32 << log) - 1)) >> log << log
}

// The stride, or 0 where the window rule is broken, by the powers of what strides and rows are multiples of. It is a number, so
// that it stays in a register; a stride is at most 2^16 and a window has 2^12 rows, so the span is at most 2^28.
fn stride_by(
    base: u32,
    pitch: u32,
    height: u32,
    size: u32,
    tiled: bool,
    stride_log: u32,
    rows_log: u32,
) -> u32
    requires { StrideAsked base pitch size tiled stride_log rows_log }
    ensures { result ≡ stride_of base pitch height size tiled }
{
    let stride = pitch * size >> stride_log << stride_log;
    if stride < 1 {
        return 0;
    }
    if SIDE_MOST * size < stride {
        return 0;
    }
    if height < 1 {
        return 0;
    }
    if SIDE_MOST < height {
        return 0;
    }
    let rows = (height + ((1u32 << rows_log) - 1)) >> rows_log << rows_log;
    // base plus span is at most 2^32, asked so that nothing wraps
    if LAST_ADDRESS - base < rows * stride - 1 {
        return 0;
    }
    stride
}

// The stride, document 01's E in bytes: the bytes from one row to the next; or 0 where the window rule is broken. For callers
// whose layouts are mostly alike, so that a branch is guessed and a linear stride waits for nothing but its pitch.
pub fn window_stride(base: u32, pitch: u32, height: u32, size: u32, tiled: bool) -> u32
    requires { well_formed base pitch size ≡ true }
    ensures { result ≡ stride_of base pitch height size tiled }
{
    if tiled {
        stride_by(
            base,
            pitch,
            height,
            size,
            true,
            stride_log(size, true),
            rows_log(size, true),
        )
    } else {
        stride_by(base, pitch, height, size, false, LINEAR_UNIT_LOG, 0)
    }
}

// The same for the windows of a stream, which can't be foretold: no branch.
pub fn stream_stride(base: u32, pitch: u32, height: u32, size: u32, tiled: bool) -> u32
    requires { well_formed base pitch size ≡ true }
    ensures { result ≡ stride_of base pitch height size tiled }
{
    stride_by(
        base,
        pitch,
        height,
        size,
        tiled,
        stride_log(size, tiled),
        rows_log(size, tiled),
    )
}

// What row steps are multiples of, by the table.
fn unit(size: u32, tiled: bool) -> u32
    requires { is_size size ≡ true }
    ensures { result ≡ unit_of tiled size }
{
    if tiled {
        tile_width(size)
    } else {
        LINEAR_UNIT / size
    }
}

// The row step by the table, for what runs less often.
fn table_step(pitch: u32, size: u32, tiled: bool) -> u32
    requires { is_size size ≡ true }
    ensures { result ≡ row_step tiled size pitch }
{
    let unit = unit(size, tiled);
    pitch / unit * unit
}

// What the rows of a window's bytes are a multiple of, by the table.
fn rows_unit(size: u32, tiled: bool) -> u32
    ensures { result ≡ pick tiled (height_of size) 1 }
{
    if tiled { tile_height(size) } else { 1 }
}

// The rows that a window's bytes make up, by the table.
fn table_rows(height: u32, size: u32, tiled: bool) -> u32
    requires { (is_size size ≡ true) × (height ≤ 4096) }
    ensures { result ≡ rows_taken tiled size height }
{
    let unit = rows_unit(size, tiled);
    (height + (unit - 1)) / unit * unit
}

// A layout's row step and span, by the tables; or 3 where base, pitch or size is malformed, or 6 where the window rule is broken.
pub fn judge(layout: Layout) -> Judged
    ensures { told_judged result ≡ judge_of layout.base.0 layout.pitch layout.height layout.size layout.tiled }
{
    let base = layout.base.0;
    let pitch = layout.pitch;
    let height = layout.height;
    let size = layout.size;
    let tiled = layout.tiled;
    if !well_formed(base, pitch, size) {
        return Judged::Refused(Refusal::Malformed);
    }
    let stride = window_stride(base, pitch, height, size, tiled);
    if stride < 1 {
        return Judged::Refused(Refusal::WindowRule);
    }
    let step = table_step(pitch, size, tiled);
    let rows = table_rows(height, size, tiled);
    Judged::Accepted {
        step,
        span: rows * stride,
    }
}
