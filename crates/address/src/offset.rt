// Offsets from a window's base: a pair to its element, and any offset back to a pair and a place. The row step is given in
// bytes, as the stride. Each size's block is handed over as constants, so that every division is one by a constant.
ghost use Rattle.std.specs.Prelude.{◌≡◌, ◌*◌, ◌/◌, ◌<◌, true, false};
ghost use Rattle.layout.specs.Sizes.{is_size, width_of};
ghost use Rattle.address.specs.Asked.{BlockAsked, PairAsked, StepAsked};
ghost use Rattle.address.specs.Offset.{tiled_offset, offset_of, tiled_x, tiled_y, x_of, y_of, byte_place};

use crate::block;

// The bytes of a tile and of a block, and how many blocks a tile has, a row and a column of it.
const TILE_BYTES: u32 = 2048;

const BLOCK_BYTES: u32 = 32;

const TILE_BLOCKS: u32 = 64;

const TILE_SIDE: u32 = 8;

// A pair of a window: its column and row.
#[derive(Drop)]
pub struct Pair {
    pub x: u32,
    pub y: u32,
}

// The offset of a pair where blocks are p wide and q high.
fn in_tiles(p: u32, q: u32, size: u32, stride: u32, x: u32, y: u32) -> u32
    requires { BlockAsked p q size (stride / size) × PairAsked size (stride / size) x y }
    ensures { result ≡ tiled_offset size (stride / size) x y }
{
    let step = stride / size;
    let number = y / (q * TILE_SIDE) * (step / (p * TILE_SIDE)) + x / (p * TILE_SIDE);
    let code = block::code(x / p, y / q);
    let element = y % q * p + x % p;
    TILE_BYTES * number + (BLOCK_BYTES * code + element * size)
}

fn tiled_offset(size: u32, stride: u32, x: u32, y: u32) -> u32
    requires { PairAsked size (stride / size) x y }
    ensures { result ≡ tiled_offset size (stride / size) x y }
{
    match size {
        1 => in_tiles(8, 4, 1, stride, x, y),
        2 => in_tiles(4, 4, 2, stride, x, y),
        4 => in_tiles(4, 2, 4, stride, x, y),
        8 => in_tiles(2, 2, 8, stride, x, y),
        _ => in_tiles(2, 1, 16, stride, x, y),
    }
}

// How far a pair's element is from the base.
pub fn offset(tiled: bool, size: u32, stride: u32, x: u32, y: u32) -> u32
    requires { PairAsked size (stride / size) x y × (stride / size * size ≡ stride) }
    ensures { result ≡ offset_of tiled size (stride / size) x y }
{
    if tiled {
        tiled_offset(size, stride, x, y)
    } else {
        y * stride + x * size
    }
}

// The pair of an offset where blocks are p wide and q high.
fn back_in_tiles(p: u32, q: u32, size: u32, stride: u32, o: u32) -> Pair
    requires { BlockAsked p q size (stride / size) × (0 < stride / size / width_of size) }
    ensures column { result.x ≡ tiled_x size (stride / size) o }
    ensures row { result.y ≡ tiled_y size (stride / size) o }
{
    let step = stride / size;
    let columns = step / (p * TILE_SIDE);
    let number = o / TILE_BYTES;
    let found = block::find(
        number % columns,
        number / columns,
        o / BLOCK_BYTES % TILE_BLOCKS,
    );
    let element = o % BLOCK_BYTES / size;
    Pair {
        x: found.column * p + element % p,
        y: found.row * q + element / p,
    }
}

fn tiled_back(size: u32, stride: u32, o: u32) -> Pair
    requires { StepAsked true size (stride / size) }
    ensures column { result.x ≡ tiled_x size (stride / size) o }
    ensures row { result.y ≡ tiled_y size (stride / size) o }
{
    match size {
        1 => back_in_tiles(8, 4, 1, stride, o),
        2 => back_in_tiles(4, 4, 2, stride, o),
        4 => back_in_tiles(4, 2, 4, stride, o),
        8 => back_in_tiles(2, 2, 8, stride, o),
        _ => back_in_tiles(2, 1, 16, stride, o),
    }
}

// How many whole elements stand before an offset. A size is a power of two, so a shift divides by it.
fn elements(size: u32, o: u32) -> u32
    requires { is_size size ≡ true }
    ensures { result ≡ o / size }
{
    o >> u32::trailing_zeros(size)
}

// The pair of an offset; its row may be past the window's last.
pub fn back(tiled: bool, size: u32, stride: u32, o: u32) -> Pair
    requires { StepAsked tiled size (stride / size) × (stride / size * size ≡ stride) }
    ensures column { result.x ≡ x_of tiled size (stride / size) o }
    ensures row { result.y ≡ y_of tiled size (stride / size) o }
{
    if tiled {
        tiled_back(size, stride, o)
    } else {
        Pair {
            x: elements(size, o % stride),
            y: o / stride,
        }
    }
}

// The place of a byte in its element. A size is a power of two, so its bits less 1 mask the place.
pub fn byte_place(size: u32, o: u32) -> u32
    requires { is_size size ≡ true }
    ensures { result ≡ byte_place size o }
{
    o & (size - 1)
}
