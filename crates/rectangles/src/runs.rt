// Elements of a tiled row, run by run: each run is one stretch of bytes.
ghost use Rattle.std.specs.Prelude.{◌≡◌, true, ◌+◌, ◌*◌, ◌/◌, ◌≤◌, ◌<◌, length};
ghost use Rattle.rectangles.specs.Moves.{moved, row_moves, element_place, RunsAsked};

use crate::stretch;
use address::{offset, run};

fn smaller(a: u32, b: u32) -> u32
    ensures { (result ≤ a) × (result ≤ b) × (0 < a → 0 < b → 0 < result) }
{
    if a < b { a } else { b }
}

// `count` elements of the row y from column x on, in a tiled window whose base is at the place `at` of memory.
pub fn by_runs(
    out: bool,
    size: u32,
    stride: u32,
    at: usize,
    x: u32,
    y: u32,
    count: u32,
    line: usize,
    from: &[u8],
    to: &mut [u8],
)
    requires { RunsAsked out true size stride at x y count line (length from.now) (length to.old) }
    ensures { to.new ≡ moved (row_moves out (element_place true size (stride / size) at y) size x line count) from.now to.old }
{
    let mut i = 0;
    let mut here = line;
    while i < count {
        let column = x + i;
        let place = at + offset::offset(true, size, stride, column, y) as usize;
        let run = run::run_from(true, size, stride, column);
        let many = smaller(run, count - i);
        let bytes = (many * size) as usize;
        stretch::stretch(out, place, here, bytes, from, to);
        here += bytes;
        i += many;
    }
}
