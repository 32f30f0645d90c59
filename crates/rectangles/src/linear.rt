// Rows of a linear rectangle: each is one stretch of bytes.
ghost use Rattle.std.specs.Prelude.{◌≡◌, length};
ghost use Rattle.rectangles.specs.Moves.{moved, row_moves};
ghost use Rattle.rectangles.specs.Rows.{line_place, LinesAsked};

use crate::stretch;

// `count` stretches of `n` bytes: in memory each begins a stride after the one before it, in the room right behind it.
pub fn lines(
    out: bool,
    place: usize,
    stride: usize,
    n: usize,
    count: u32,
    from: &[u8],
    to: &mut [u8],
)
    requires { LinesAsked out place stride n count (length from.now) (length to.old) }
    ensures { to.new ≡ moved (row_moves out (line_place place stride) n 0 0 count) from.now to.old }
{
    let mut j = 0;
    let mut here = place;
    let mut line = 0;
    while j < count {
        stretch::stretch(out, here, line, n, from, to);
        here += stride;
        line += n;
        j += 1;
    }
}
