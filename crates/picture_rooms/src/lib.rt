// Whole rectangles of a window over numbers, memory's first byte being at the address `first`: each answer is a status, 0 or a
// refusal's number, in the order 3, 6, 10, 11. A refusal touches no room and no memory. The layout is judged once; memory may have any
// length up to 2^32 and covers the window's span.
#![tactic(auto)]

ghost use Rattle.std.specs.Prelude.{◌≡◌, ◌*◌, length};
ghost use Rattle.refusal.specs.Crossing.{Crosses, status_of};
ghost use Rattle.layout.specs.declared.Layout.{Layout};
ghost use Rattle.address.specs.Address.{layout_of};
ghost use Rattle.rectangles.specs.Bulk.{all_within};
ghost use Rattle.picture_rooms.specs.Rooms.{covers_span, rectangle_of, copy_of, row_of, PaintCrosses};

use layout::{ByteAddress, Judged, Layout};
use rectangles::bulk;

// How many bytes have an address, 2^32.
const ADDRESSED: u64 = 0x1_0000_0000;

// A pair outside its window, and memory or a room of a wrong length or place.
const PAIR_OUTSIDE: u32 = 10;

const WRONG_LENGTH: u32 = 11;

// Whether memory ends at 2^32 at most and covers so many bytes from the base on. Sums are taken at 64 bits, where they can't wrap.
fn covers(base: u32, span: u32, first: u32, length: usize) -> bool
    ensures { result ≡ covers_span base span first length }
{
    if ADDRESSED < length as u64 {
        return false;
    }
    let end = first as u64 + length as u64;
    if ADDRESSED < end {
        return false;
    }
    if base < first {
        return false;
    }
    base as u64 + span as u64 <= end
}

// The status of a rectangle: 0, 3, 6, 10 or 11.
fn judge(
    layout: Layout,
    x: u32,
    y: u32,
    columns: u32,
    rows: u32,
    first: u32,
    room: usize,
    length: usize,
) -> u32
    ensures { result ≡ status_of (rectangle_of layout x y columns rows first room length) }
{
    match layout::judge(layout) {
        Judged::Refused(why) => u32::from(why),
        Judged::Accepted { step, span } => {
            if !bulk::within(step, layout.height, x, y, columns, rows) {
                return PAIR_OUTSIDE;
            }
            // at most 2^32 pairs of at most 16 bytes
            let bytes = columns as u64 * rows as u64 * layout.size as u64;
            if room as u64 != bytes {
                return WRONG_LENGTH;
            }
            if !covers(layout.base.0, span, first, length) {
                return WRONG_LENGTH;
            }
            0
        }
    }
}

// The elements of the room, row by row, into memory; 3, 6, 10 or 11.
pub fn paint(
    base: u32,
    pitch: u32,
    height: u32,
    size: u32,
    tiled: bool,
    x: u32,
    y: u32,
    columns: u32,
    rows: u32,
    memory: &mut [u8],
    first: u32,
    room: &[u8],
) -> u32
    ensures { PaintCrosses (layout_of base pitch height size tiled) x y columns rows first room.now result memory.old memory.new }
{
    let layout = Layout {
        base: ByteAddress(base),
        pitch,
        height,
        size,
        tiled,
    };
    let status = judge(layout, x, y, columns, rows, first, room.len(), memory.len());
    if status != 0 {
        return status;
    }
    if 0 < room.len() {
        bulk::carry(false, layout, x, y, columns, rows, first, room, memory)
    }
    0
}

// The elements of a rectangle, row by row, into the room; 3, 6, 10 or 11.
pub fn copy_out(
    base: u32,
    pitch: u32,
    height: u32,
    size: u32,
    tiled: bool,
    x: u32,
    y: u32,
    columns: u32,
    rows: u32,
    memory: &[u8],
    first: u32,
    room: &mut [u8],
) -> u32
    ensures { Crosses (copy_of (layout_of base pitch height size tiled) x y columns rows first (length room.old) memory.now) result room.old room.new }
{
    let layout = Layout {
        base: ByteAddress(base),
        pitch,
        height,
        size,
        tiled,
    };
    let status = judge(layout, x, y, columns, rows, first, room.len(), memory.len());
    if status != 0 {
        return status;
    }
    if 0 < room.len() {
        bulk::carry(true, layout, x, y, columns, rows, first, memory, room)
    }
    0
}

// Whether as many pairs of the row y from column x on are inside as a room has places.
fn row_within(step: u32, height: u32, x: u32, y: u32, columns: usize) -> bool
    ensures { result ≡ all_within step height x y columns 1 }
{
    if (step as usize) < columns {
        return false;
    }
    bulk::within(step, height, x, y, columns as u32, 1)
}

// The addresses of as many pairs of the row y, from column x on, as there is room for; 3, 6 or 10.
pub fn translate_row(
    base: u32,
    pitch: u32,
    height: u32,
    size: u32,
    tiled: bool,
    x: u32,
    y: u32,
    addresses: &mut [u32],
) -> u32
    ensures { Crosses (row_of (layout_of base pitch height size tiled) x y (length addresses.old)) result addresses.old addresses.new }
{
    let layout = Layout {
        base: ByteAddress(base),
        pitch,
        height,
        size,
        tiled,
    };
    match layout::judge(layout) {
        Judged::Refused(why) => u32::from(why),
        Judged::Accepted { step, span: _ } => {
            if !row_within(step, height, x, y, addresses.len()) {
                return PAIR_OUTSIDE;
            }
            if 0 < addresses.len() {
                address_rows::addresses(base, size, tiled, step * size, x, y, addresses)
            }
            0
        }
    }
}
