// The way back over numbers: the pair that owns a byte and the byte's place in its element go straight into a room that the caller
// lends, and the answer is a status, 0 or a refusal's number. A refusal touches no room: 3, 6 or 12.
ghost use Rattle.std.specs.Prelude.{◌≡◌, ◌+◌, ◌%◌, ◌^◌, true, false};
ghost use Rattle.refusal.specs.Crossing.{Crosses};
ghost use Rattle.layout.specs.Layout.{well_formed};
ghost use Rattle.address.specs.Address.{locate_of, layout_of};
ghost use Rattle.address.specs.Owner.{StrideTaken, owner_of};

use crate::offset;

const MALFORMED: u32 = 3;

const WINDOW_RULE: u32 = 6;

const UNOWNED: u32 = 12;

// The length of a room: a pair's x, y and the byte's place in its element.
pub const NUMBERS: usize = 3;

// How far an address stands behind the base, modulo 2^32. One below the base is at or behind the end of every window that is
// accepted, so no test of its own is left for it.
fn distance(base: u32, address: u32) -> u32
    ensures { (result + base) % 2 ^ 32 ≡ address }
{
    std::num::wrapping_sub_u32(address, base)
}

// The owner of the byte that stands `o` bytes from the base of a window with this stride, 0 for one that the window rule refuses.
fn owner(tiled: bool, size: u32, stride: u32, height: u32, o: u32, room: &mut [u32; NUMBERS]) -> u32
    requires { StrideTaken tiled size stride }
    ensures { Crosses (owner_of tiled size stride height o) result room.old room.new }
{
    if stride < 1 {
        return WINDOW_RULE;
    }
    let pair = offset::back(tiled, size, stride, o);
    if height <= pair.y {
        return UNOWNED;
    }
    *room = [pair.x, pair.y, offset::byte_place(size, o)];
    0
}

// The owners in the five tiled kinds, each in a function of its own so that the compiler expands `owner` in it.
fn tiled_1(base: u32, pitch: u32, height: u32, address: u32, room: &mut [u32; NUMBERS]) -> u32
    requires { well_formed base pitch 1 ≡ true }
    ensures { Crosses (locate_of (layout_of base pitch height 1 true) address) result room.old room.new }
{
    let stride = layout::window_stride(base, pitch, height, 1, true);
    let o = distance(base, address);
    owner(true, 1, stride, height, o, room)
}

fn tiled_2(base: u32, pitch: u32, height: u32, address: u32, room: &mut [u32; NUMBERS]) -> u32
    requires { well_formed base pitch 2 ≡ true }
    ensures { Crosses (locate_of (layout_of base pitch height 2 true) address) result room.old room.new }
{
    let stride = layout::window_stride(base, pitch, height, 2, true);
    let o = distance(base, address);
    owner(true, 2, stride, height, o, room)
}

fn tiled_4(base: u32, pitch: u32, height: u32, address: u32, room: &mut [u32; NUMBERS]) -> u32
    requires { well_formed base pitch 4 ≡ true }
    ensures { Crosses (locate_of (layout_of base pitch height 4 true) address) result room.old room.new }
{
    let stride = layout::window_stride(base, pitch, height, 4, true);
    let o = distance(base, address);
    owner(true, 4, stride, height, o, room)
}

fn tiled_8(base: u32, pitch: u32, height: u32, address: u32, room: &mut [u32; NUMBERS]) -> u32
    requires { well_formed base pitch 8 ≡ true }
    ensures { Crosses (locate_of (layout_of base pitch height 8 true) address) result room.old room.new }
{
    let stride = layout::window_stride(base, pitch, height, 8, true);
    let o = distance(base, address);
    owner(true, 8, stride, height, o, room)
}

fn tiled_16(base: u32, pitch: u32, height: u32, address: u32, room: &mut [u32; NUMBERS]) -> u32
    requires { well_formed base pitch 16 ≡ true }
    ensures { Crosses (locate_of (layout_of base pitch height 16 true) address) result room.old room.new }
{
    let stride = layout::window_stride(base, pitch, height, 16, true);
    let o = distance(base, address);
    owner(true, 16, stride, height, o, room)
}

// The owner in a tiled layout whose base and pitch are formed, with one branch on the size.
fn tiled_owner(
    base: u32,
    pitch: u32,
    height: u32,
    size: u32,
    address: u32,
    room: &mut [u32; NUMBERS],
) -> u32
    requires { well_formed base pitch 1 ≡ true }
    ensures { Crosses (locate_of (layout_of base pitch height size true) address) result room.old room.new }
{
    match size {
        1 => tiled_1(base, pitch, height, address, room),
        2 => tiled_2(base, pitch, height, address, room),
        4 => tiled_4(base, pitch, height, address, room),
        8 => tiled_8(base, pitch, height, address, room),
        16 => tiled_16(base, pitch, height, address, room),
        _ => MALFORMED,
    }
}

// The owner in a linear layout whose base and pitch are formed.
fn linear_owner(
    base: u32,
    pitch: u32,
    height: u32,
    size: u32,
    address: u32,
    room: &mut [u32; NUMBERS],
) -> u32
    requires { well_formed base pitch 1 ≡ true }
    ensures { Crosses (locate_of (layout_of base pitch height size false) address) result room.old room.new }
{
    if !layout::is_size(size) {
        return MALFORMED;
    }
    let stride = layout::window_stride(base, pitch, height, size, false);
    let o = distance(base, address);
    owner(false, size, stride, height, o, room)
}

// The pair that owns the byte at an address, and the byte's place in its element; 3, 6 or 12.
pub fn locate(
    base: u32,
    pitch: u32,
    height: u32,
    size: u32,
    tiled: bool,
    address: u32,
    room: &mut [u32; NUMBERS],
) -> u32
    ensures { Crosses (locate_of (layout_of base pitch height size tiled) address) result room.old room.new }
{
    if !crate::formed(base, pitch) {
        return MALFORMED;
    }
    if tiled {
        tiled_owner(base, pitch, height, size, address, room)
    } else {
        linear_owner(base, pitch, height, size, address, room)
    }
}
