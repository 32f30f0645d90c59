// Stretches of any length between memory and a room. The last move ends where the stretch ends, over bytes of the move before it where the
// lengths ask for that: what it moves again is the same, and no byte goes by itself.
ghost use Rattle.std.specs.Prelude.{◌≡◌, [], ◌∷◌, ◌≤◌, length};
ghost use Rattle.rectangles.specs.Moves.{moved, turned, StretchAsked, EndsAsked};

use crate::parts;

// The bytes of a wide move.
const WIDE: usize = 32;

// The first `k` bytes and the last `k`, which together are all `n`.
fn ends(out: bool, place: usize, line: usize, n: usize, k: usize, from: &[u8], to: &mut [u8])
    requires { EndsAsked out place line n k (length from.now) (length to.old) }
    ensures { to.new ≡ moved (turned out place line n ∷ []) from.now to.old }
{
    let last = n - k;
    parts::turn(out, place, line, k, from, to);
    parts::turn(out, place + last, line + last, k, from, to);
}

// Less than a wide move.
fn short(out: bool, place: usize, line: usize, n: usize, from: &[u8], to: &mut [u8])
    requires { StretchAsked out place line n (length from.now) (length to.old) × (n ≤ 32) }
    ensures { to.new ≡ moved (turned out place line n ∷ []) from.now to.old }
{
    if 16 <= n {
        return ends(out, place, line, n, 16, from, to);
    }
    if 8 <= n {
        return ends(out, place, line, n, 8, from, to);
    }
    if 4 <= n {
        return ends(out, place, line, n, 4, from, to);
    }
    parts::turn(out, place, line, n, from, to)
}

// At least a wide move.
fn long(out: bool, place: usize, line: usize, n: usize, from: &[u8], to: &mut [u8])
    requires { StretchAsked out place line n (length from.now) (length to.old) × (32 ≤ n) }
    ensures { to.new ≡ moved (turned out place line n ∷ []) from.now to.old }
{
    let last = n - WIDE;
    let mut i = 0;
    while i < last {
        parts::turn(out, place + i, line + i, WIDE, from, to);
        i += WIDE;
    }
    parts::turn(out, place + last, line + last, WIDE, from, to);
}

pub fn stretch(out: bool, place: usize, line: usize, n: usize, from: &[u8], to: &mut [u8])
    requires { StretchAsked out place line n (length from.now) (length to.old) }
    ensures { to.new ≡ moved (turned out place line n ∷ []) from.now to.old }
{
    if WIDE <= n {
        long(out, place, line, n, from, to)
    } else {
        short(out, place, line, n, from, to)
    }
}
