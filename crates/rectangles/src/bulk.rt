// A rectangle of an accepted window, between lent memory and a lent room.
ghost use Rattle.std.specs.Prelude.{◌≡◌, ◌-◌, length};
ghost use Rattle.layout.specs.declared.Layout.{Layout};
ghost use Rattle.address.specs.Address.{step_of};
ghost use Rattle.rectangles.specs.Moves.{moved, element_place};
ghost use Rattle.rectangles.specs.Rows.{rect_moves};
ghost use Rattle.rectangles.specs.Bulk.{all_within, RectLent};

use crate::{linear, plan, rows};
use layout::{ByteAddress, Layout};

// Whether every pair of the rectangle is inside a window of this row step and height.
pub fn within(step: u32, height: u32, x: u32, y: u32, columns: u32, rows: u32) -> bool
    ensures { result ≡ all_within step height x y columns rows }
{
    if columns == 0 {
        return true;
    }
    if rows == 0 {
        return true;
    }
    if step < columns {
        return false;
    }
    if step - columns < x {
        return false;
    }
    if height < rows {
        return false;
    }
    y <= height - rows
}

// The rectangle of an accepted layout, whose pairs are all inside, in memory that covers the window's span. With `out` the elements
// go from memory, `from`, into the room, `to`; else from the room, `from`, into memory, `to`.
pub fn carry(
    out: bool,
    layout: Layout,
    x: u32,
    y: u32,
    columns: u32,
    rows: u32,
    first: u32,
    from: &[u8],
    to: &mut [u8],
)
    requires { RectLent out layout x y columns rows first (length from.now) (length to.old) }
    ensures { to.new ≡ moved (rect_moves out (element_place layout.tiled layout.size (step_of layout) (layout.base.0 - first)) layout.size x columns 0 y rows) from.now to.old }
{
    let size = layout.size;
    let tiled = layout.tiled;
    let base = layout.base.0;
    let pitch = layout.pitch;
    let step = layout::row_step(pitch, size, tiled);
    let stride = step * size;
    let at = (base - first) as usize;
    if tiled {
        let parts = plan::split(size, x, columns);
        let n = plan::block_bytes(size);
        let tiles = stride / (8 * n);
        rows::rows(
            out,
            size,
            n,
            stride,
            tiles,
            at,
            x,
            y,
            parts.lead,
            parts.first,
            parts.count,
            parts.inner,
            parts.tail,
            rows,
            from,
            to,
        )
    } else {
        let place = at + (y * stride + x * size) as usize;
        let bytes = (columns * size) as usize;
        linear::lines(out, place, stride as usize, bytes, rows, from, to)
    }
}
