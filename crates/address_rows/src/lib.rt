// The addresses of a row's pairs, run by run: each run is a stretch of addresses, one element's size apart, and a linear row is one run. Where
// a run begins is read from the table of places in one-byte tiled layouts, and worked out by the bit rule in all others.
#![tactic(auto)]

ghost use Rattle.std.specs.Prelude.{◌≡◌, true, false, ◌+◌, ◌-◌, ◌*◌, ◌/◌, ◌≤◌, ◌<◌, ◌^◌, length};
ghost use Rattle.address.specs.Offset.{offset_of};
ghost use Rattle.address.specs.Asked.{PairAsked};
ghost use Rattle.address.specs.Run.{run_unit};
ghost use Rattle.places.specs.Places.{places};
ghost use Rattle.address_rows.specs.Rows.{listed, element_at, written, RowAsked, RunAsked, RunBegins};

use address::{offset, run};
use places::PLACES;

// The bytes of a tile; the columns and rows of one of one-byte elements.
const TILE_BYTES: u32 = 2048;

const TILE_COLUMNS: u32 = 64;

const TILE_ROWS: u32 = 32;

// Addresses from `at` on, `size` apart.
fn fill(part: &mut [u32], at: u32, size: u32)
    requires { (at + length part.old * size ≤ 2 ^ 32) × (length part.old ≤ 4096) × (0 < size) }
    ensures { part.new ≡ listed (λ j. at + j * size) 0 (length part.old) }
{
    let mut j = 0;
    while j < part.len() {
        part[j] = at + j as u32 * size;
        j += 1;
    }
}

fn smaller(a: u32, b: usize) -> usize
    ensures { (result ≤ a) × (result ≤ b) × (result < b → result ≡ a) }
{
    let wide = a as usize;
    if wide < b { wide } else { b }
}

// The addresses from place i up to `end`, at most where the run of the first of them ends.
fn one_run(
    base: u32,
    size: u32,
    tiled: bool,
    stride: u32,
    x: u32,
    y: u32,
    room: &mut [u32],
    i: usize,
    end: usize,
)
    requires { RowAsked base size tiled stride x y (length room.old) × RunAsked tiled size (stride / size) x (length room.old) i end }
    ensures { room.new ≡ written (element_at base size tiled (stride / size) x y) i end room.old }
{
    let at = base + offset::offset(tiled, size, stride, x + i as u32, y);
    fill(&mut room[i..end], at, size)
}

// Whole runs of `unit` elements in tiles, from place `from` on, as many as there is room for, and where they end. Where unit and size are
// constants, a run is one or two wide stores.
fn whole_runs(
    unit: usize,
    size: u32,
    base: u32,
    stride: u32,
    x: u32,
    y: u32,
    room: &mut [u32],
    from: usize,
) -> usize
    requires { (unit ≡ run_unit size) × RowAsked base size true stride x y (length room.old) × RunBegins size x (length room.old) from }
    ensures next { (from ≤ result) × RunBegins size x (length room.old) result × (length room.old - result < unit) }
    ensures bytes { room.new ≡ written (element_at base size true (stride / size) x y) from result room.old }
{
    let count = room.len();
    let mut i = from;
    while unit <= count - i {
        one_run(base, size, true, stride, x, y, room, i, i + unit);
        i += unit;
    }
    i
}

// The same for any size above 1, with one branch on it.
fn whole_of(
    base: u32,
    size: u32,
    stride: u32,
    x: u32,
    y: u32,
    room: &mut [u32],
    from: usize,
) -> usize
    requires { RowAsked base size true stride x y (length room.old) × (size ≡ 1 → ⊥) × RunBegins size x (length room.old) from }
    ensures next { (from ≤ result) × RunBegins size x (length room.old) result × (length room.old - result < run_unit size) }
    ensures bytes { room.new ≡ written (element_at base size true (stride / size) x y) from result room.old }
{
    match size {
        2 => whole_runs(4, 2, base, stride, x, y, room, from),
        4 => whole_runs(4, 4, base, stride, x, y, room, from),
        8 => whole_runs(2, 8, base, stride, x, y, room, from),
        _ => whole_runs(4, 16, base, stride, x, y, room, from),
    }
}

// The addresses in tiles by the bit rule: the rest of the run that x is in, whole runs, and what is left.
fn by_runs(base: u32, size: u32, stride: u32, x: u32, y: u32, room: &mut [u32])
    requires { RowAsked base size true stride x y (length room.old) × (size ≡ 1 → ⊥) }
    ensures { room.new ≡ listed (element_at base size true (stride / size) x y) 0 (length room.old) }
{
    let count = room.len();
    if count == 0 {
        return;
    }
    let head = smaller(run::run_from(true, size, stride, x), count);
    one_run(base, size, true, stride, x, y, room, 0, head);
    let past = whole_of(base, size, stride, x, y, room, head);
    if past < count {
        one_run(base, size, true, stride, x, y, room, past, count);
    }
}

// A linear row is one run. Where the size is a constant, four addresses are one store.
fn linear(base: u32, size: u32, stride: u32, x: u32, y: u32, room: &mut [u32])
    requires { RowAsked base size false stride x y (length room.old) }
    ensures { room.new ≡ listed (element_at base size false (stride / size) x y) 0 (length room.old) }
{
    let count = room.len();
    if count == 0 {
        return;
    }
    match size {
        1 => one_run(base, 1, false, stride, x, y, room, 0, count),
        2 => one_run(base, 2, false, stride, x, y, room, 0, count),
        4 => one_run(base, 4, false, stride, x, y, room, 0, count),
        8 => one_run(base, 8, false, stride, x, y, room, 0, count),
        _ => one_run(base, 16, false, stride, x, y, room, 0, count),
    }
}

// How far a one-byte element is from the base, in tiles, by a lent table.
fn byte_offset(table: &[u16; PLACES], stride: u32, x: u32, y: u32) -> u32
    requires { (table.now ≡ places) × PairAsked 1 (stride / 1) x y × (stride / 1 * 1 ≡ stride) }
    ensures { result ≡ offset_of true 1 (stride / 1) x y }
{
    let number = y / TILE_ROWS * (stride / TILE_COLUMNS) + x / TILE_COLUMNS;
    TILE_BYTES * number + places::by_table(table, x, y)
}

// The addresses of one-byte elements in tiles: the table is taken once, and lent down.
fn by_places(base: u32, stride: u32, x: u32, y: u32, room: &mut [u32])
    requires { RowAsked base 1 true stride x y (length room.old) }
    ensures { room.new ≡ listed (element_at base 1 true (stride / 1) x y) 0 (length room.old) }
{
    let table = places::table();
    let count = room.len();
    let mut i = 0;
    while i < count {
        let column = x + i as u32;
        let many = smaller(run::run_from(true, 1, stride, column), count - i);
        let at = base + byte_offset(&table, stride, column, y);
        fill(&mut room[i..i + many], at, 1);
        i += many;
    }
}

// The addresses of as many pairs of the row y, from column x on, as there is room for.
pub fn addresses(base: u32, size: u32, tiled: bool, stride: u32, x: u32, y: u32, room: &mut [u32])
    requires { RowAsked base size tiled stride x y (length room.old) }
    ensures { room.new ≡ listed (element_at base size tiled (stride / size) x y) 0 (length room.old) }
{
    if tiled {
        if size == 1 {
            by_places(base, stride, x, y, room)
        } else {
            by_runs(base, size, stride, x, y, room)
        }
    } else {
        linear(base, size, stride, x, y, room)
    }
}
