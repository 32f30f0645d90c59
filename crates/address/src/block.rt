// The blocks of a tile: a block is 32 bytes of it, and bits 10 to 5 of a place inside a tile say which. That number from a block's
// column and row, and the way back. No size is in it.
ghost use Rattle.std.specs.Prelude.{◌≡◌, ◌^◌, ◌<◌};
ghost use Rattle.laws.specs.Bits.{xor};
ghost use Rattle.address.specs.Offset.{code_of, block_x, block_y};

// A block by its column and row in the whole window.
#[derive(Drop)]
pub struct Block {
    pub column: u32,
    pub row: u32,
}

// The exclusive or of two bits.
fn flip(a: u32, b: u32) -> u32
    requires { (a < 2) × (b < 2) }
    ensures value { result ≡ xor a b }
    ensures most { result < 2 }
{
    a ^ b
}

// Bits 10 to 5 of the place inside a tile, for the block at this column and row of the window.
pub fn code(column: u32, row: u32) -> u32
    ensures value { result ≡ code_of column row }
    ensures most { result < 64 }
{
    // what the column puts in, and what the row does, each with all its bits at once: X2 and Y2 stand twice
    let by_column = column / 4 % 4 * 16 + column / 2 % 4 * 4 + column % 2;
    let by_row = row / 8 % 2 * 16 + row / 4 % 2 * 36 + row / 2 % 2 * 8 + row % 2 * 2;
    by_row ^ by_column
}

// The block with this code in the tile at this column and row of tiles.
pub fn find(column: u32, row: u32, code: u32) -> Block
    requires { (column < 2 ^ 24) × (row < 2 ^ 24) }
    ensures column { result.column ≡ block_x column row code }
    ensures row { result.row ≡ block_y column row code }
{
    let x2 = flip(code / 16 % 2, row % 2);
    let y2 = flip(code / 32 % 2, column % 2);
    let x1 = flip(code / 4 % 2, y2);
    let y1 = flip(code / 8 % 2, x2);
    Block {
        column: 8 * column + 4 * x2 + 2 * x1 + code % 2,
        row: 8 * row + 4 * y2 + 2 * y1 + code / 2 % 2,
    }
}
