// Rows of a tiled rectangle of elements, between memory and a room in which they stand row by row.
ghost use Rattle.std.specs.Prelude.{◌≡◌, true, ◌+◌, ◌*◌, ◌/◌, length};
ghost use Rattle.rectangles.specs.Moves.{moved, row_moves, element_place, RunsAsked};
ghost use Rattle.rectangles.specs.Rows.{rect_moves, RowAsked, RectAsked};

use crate::{runs, tiles};

// The bytes of a block and of a tile, and how many blocks high a tile is.
const BLOCK_BYTES: u32 = 32;

const TILE_BYTES: u32 = 2048;

const TILE_SIDE: u32 = 8;

// The elements of a row before the first whole tile; mostly none.
fn first_edge(
    out: bool,
    size: u32,
    stride: u32,
    at: usize,
    x: u32,
    y: u32,
    lead: u32,
    line: usize,
    from: &[u8],
    to: &mut [u8],
)
    requires { RunsAsked out true size stride at x y lead line (length from.now) (length to.old) }
    ensures { to.new ≡ moved (row_moves out (element_place true size (stride / size) at y) size x line lead) from.now to.old }
{
    if 0 < lead {
        runs::by_runs(out, size, stride, at, x, y, lead, line, from, to)
    }
}

// The elements after the last whole tile; mostly none. `before` of the row's elements stand before them. A routine apart from the first
// edge's, so that `by_runs` has two callers: with one, the compiler makes of both a call that every row pays for, twice.
fn last_edge(
    out: bool,
    size: u32,
    stride: u32,
    at: usize,
    x: u32,
    y: u32,
    before: u32,
    count: u32,
    line: usize,
    from: &[u8],
    to: &mut [u8],
)
    requires { RunsAsked out true size stride at x y (before + count) line (length from.now) (length to.old) }
    ensures { to.new ≡ moved (row_moves out (element_place true size (stride / size) at y) size (x + before) (line + before * size) count) from.now to.old }
{
    if 0 < count {
        let here = line + (before * size) as usize;
        runs::by_runs(out, size, stride, at, x + before, y, count, here, from, to)
    }
}

// A row, as RowAsked tells it.
fn row(
    out: bool,
    size: u32,
    n: u32,
    stride: u32,
    columns: u32,
    at: usize,
    x: u32,
    y: u32,
    lead: u32,
    first: u32,
    count: u32,
    inner: u32,
    tail: u32,
    line: usize,
    from: &[u8],
    to: &mut [u8],
)
    requires { RowAsked out size n stride columns at x y lead first count inner tail line (length from.now) (length to.old) }
    ensures { to.new ≡ moved (row_moves out (element_place true size (stride / size) at y) size x line (lead + inner + tail)) from.now to.old }
{
    let bytes = y * n;
    let start = at
        + (TILE_BYTES * (bytes / BLOCK_BYTES / TILE_SIDE * columns) + bytes % BLOCK_BYTES) as usize;
    let middle = line + (lead * size) as usize;
    first_edge(out, size, stride, at, x, y, lead, line, from, to);
    tiles::tiles(
        out,
        n as usize,
        start,
        bytes / BLOCK_BYTES,
        first,
        count,
        middle,
        from,
        to,
    );
    last_edge(
        out,
        size,
        stride,
        at,
        x,
        y,
        lead + inner,
        tail,
        line,
        from,
        to,
    )
}

// `rows` rows from the row y on.
pub fn rows(
    out: bool,
    size: u32,
    n: u32,
    stride: u32,
    columns: u32,
    at: usize,
    x: u32,
    y: u32,
    lead: u32,
    first: u32,
    count: u32,
    inner: u32,
    tail: u32,
    rows: u32,
    from: &[u8],
    to: &mut [u8],
)
    requires { RectAsked out size n stride columns at x y lead first count inner tail rows (length from.now) (length to.old) }
    ensures { to.new ≡ moved (rect_moves out (element_place true size (stride / size) at) size x (lead + inner + tail) 0 y rows) from.now to.old }
{
    let bytes = ((lead + inner + tail) * size) as usize;
    let mut j = 0;
    let mut line = 0;
    while j < rows {
        row(
            out,
            size,
            n,
            stride,
            columns,
            at,
            x,
            y + j,
            lead,
            first,
            count,
            inner,
            tail,
            line,
            from,
            to,
        );
        line += bytes;
        j += 1;
    }
}
