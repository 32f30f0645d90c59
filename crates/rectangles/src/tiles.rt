// Whole tiles of a window's row, between memory and a room. A tile's row is the rows of eight blocks, which stand in four pairs.
ghost use Rattle.std.specs.Prelude.{◌≡◌, ◌+◌, ◌*◌, ◌≤◌, length};
ghost use Rattle.rectangles.specs.Moves.{moved, row_moves, block_place, TilesAsked};

use crate::parts;

// One tile's row: `n` bytes of each of its blocks. The places are those of the blocks' codes: the columns' bits 2 and 1 stand against bits
// of the row, so that a set bit of the row swaps the pairs.
fn tile_row(
    out: bool,
    n: usize,
    start: usize,
    row: u32,
    tile: u32,
    line: usize,
    from: &[u8],
    to: &mut [u8],
)
    requires { TilesAsked out n start row tile 1 line (length from.now) (length to.old) }
    ensures { to.new ≡ moved (row_moves out (block_place start row) n (8 * tile) line 8) from.now to.old }
{
    let low = row / 4 % 2;
    let swapped = (row / 8 % 2 * 512 + row / 2 % 2 * 256) as usize;
    let turned = (low * 128) as usize;
    let at = start + (2048 * tile + ((low + tile) % 2 * 1024 + row % 2 * 64)) as usize;
    let a = at + (swapped + turned);
    let b = at + (swapped + (128 - turned));
    let c = at + (768 - swapped + turned);
    let d = at + (768 - swapped + (128 - turned));
    parts::four_pairs(out, n, a, b, c, d, line, from, to);
}

// The rows of `count` tiles, from the tile `first` on.
pub fn tiles(
    out: bool,
    n: usize,
    start: usize,
    row: u32,
    first: u32,
    count: u32,
    line: usize,
    from: &[u8],
    to: &mut [u8],
)
    requires { TilesAsked out n start row first count line (length from.now) (length to.old) }
    ensures { to.new ≡ moved (row_moves out (block_place start row) n (8 * first) line (8 * count)) from.now to.old }
{
    let mut k = 0;
    let mut at = line;
    while k < count {
        tile_row(out, n, start, row, first + k, at, from, to);
        at += 8 * n;
        k += 1;
    }
}
