// Whole rectangles of a window in lent memory, whose first byte stands at the address `first`, and the addresses of a row.
ghost use Rattle.std.specs.Prelude.{length};
ghost use Rattle.address.specs.Address.{layout_of};
ghost use Rattle.refusal.specs.Crossing.{Crosses};
ghost use Rattle.picture_rooms.specs.Rooms.{copy_of, row_of, PaintCrosses};

// The elements of the room, row by row, into memory; 3, 6, 10 or 11.
#[unsafe(no_mangle)]
pub extern "C" fn egretfold_picture_paint(
    base: u32,
    pitch: u32,
    height: u32,
    size: u32,
    tiled: bool,
    x: u32,
    y: u32,
    columns: u32,
    rows: u32,
    memory: &mut [u8],
    first: u32,
    room: &[u8],
) -> u32
    ensures { PaintCrosses (layout_of base pitch height size tiled) x y columns rows first room.now result memory.old memory.new }
{
    picture_rooms::paint(
        base, pitch, height, size, tiled, x, y, columns, rows, memory, first, room,
    )
}

// The elements of a rectangle, row by row, into the room; 3, 6, 10 or 11.
#[unsafe(no_mangle)]
pub extern "C" fn egretfold_picture_copy_out(
    base: u32,
    pitch: u32,
    height: u32,
    size: u32,
    tiled: bool,
    x: u32,
    y: u32,
    columns: u32,
    rows: u32,
    memory: &[u8],
    first: u32,
    room: &mut [u8],
) -> u32
    ensures { Crosses (copy_of (layout_of base pitch height size tiled) x y columns rows first (length room.old) memory.now) result room.old room.new }
{
    picture_rooms::copy_out(
        base, pitch, height, size, tiled, x, y, columns, rows, memory, first, room,
    )
}

// The addresses of as many pairs of the row y, from column x on, as there is room for; 3, 6 or 10.
#[unsafe(no_mangle)]
pub extern "C" fn egretfold_picture_row(
    base: u32,
    pitch: u32,
    height: u32,
    size: u32,
    tiled: bool,
    x: u32,
    y: u32,
    addresses: &mut [u32],
) -> u32
    ensures { Crosses (row_of (layout_of base pitch height size tiled) x y (length addresses.old)) result addresses.old addresses.new }
{
    picture_rooms::translate_row(base, pitch, height, size, tiled, x, y, addresses)
}
