// Parts of at most 32 bytes between memory and a room. Where the length is a constant, a part is one or two wide moves.
ghost use Rattle.std.specs.Prelude.{◌≡◌, [], ◌∷◌, ◌++◌, ◌+◌, ◌*◌, ◌≤◌, length, take, drop, replicate};
ghost use Rattle.memory.specs.Elements.{overwritten};
ghost use Rattle.rectangles.specs.Moves.{moved, turned, pairs_of, eight_of, PartAsked, PairsAsked, EightAsked};

use memory::copy;

// The most bytes of a part: those of a block.
const MOST: usize = 32;

// A part of `n` bytes, held apart.
fn hold(part: &[u8], n: usize) -> [u8; MOST]
    requires { (length part.now ≡ n) × (n ≤ 32) }
    ensures { result ≡ overwritten 0 part.now (replicate 32 0) }
{
    let mut held = [0; MOST];
    copy::store_all(&mut held[0..n], part, n);
    held
}

// A part of `from` into a part of `to`, both `n` bytes long. It is held apart between, so that all of it is read before any is written.
fn carry(from: &[u8], a: usize, to: &mut [u8], b: usize, n: usize)
    requires { (a + n ≤ length from.now) × (b + n ≤ length to.old) × (n ≤ 32) }
    ensures { to.new ≡ overwritten b (take n (drop a from.now)) to.old }
{
    let held = hold(&from[a..a + n], n);
    copy::store_all(&mut to[b..b + n], &held[0..n], n);
}

// A part out of memory into the room, or the other way.
pub fn turn(out: bool, place: usize, line: usize, n: usize, from: &[u8], to: &mut [u8])
    requires { PartAsked out place line n (length from.now) (length to.old) }
    ensures { to.new ≡ moved (turned out place line n ∷ []) from.now to.old }
{
    if out {
        carry(from, place, to, line, n)
    } else {
        carry(from, line, to, place, n)
    }
}

// Two pairs of parts.
fn two_pairs(out: bool, n: usize, a: usize, b: usize, line: usize, from: &[u8], to: &mut [u8])
    requires { PairsAsked out n a b line (length from.now) (length to.old) }
    ensures { to.new ≡ moved (pairs_of out n a b line) from.now to.old }
{
    turn(out, a, line, n, from, to);
    turn(out, a + 32, line + n, n, from, to);
    turn(out, b, line + 2 * n, n, from, to);
    turn(out, b + 32, line + 3 * n, n, from, to);
}

// The eight parts of a tile's row: four pairs, in the order of the room. Direction and length are constants in each arm.
pub fn four_pairs(
    out: bool,
    n: usize,
    a: usize,
    b: usize,
    c: usize,
    d: usize,
    line: usize,
    from: &[u8],
    to: &mut [u8],
)
    requires { EightAsked out n a b c d line (length from.now) (length to.old) }
    ensures { to.new ≡ moved (eight_of out n a b c d line) from.now to.old }
{
    let middle = line + 4 * n;
    if out {
        match n {
            8 => {
                two_pairs(true, 8, a, b, line, from, to);
                two_pairs(true, 8, c, d, middle, from, to);
            }
            16 => {
                two_pairs(true, 16, a, b, line, from, to);
                two_pairs(true, 16, c, d, middle, from, to);
            }
            32 => {
                two_pairs(true, 32, a, b, line, from, to);
                two_pairs(true, 32, c, d, middle, from, to);
            }
            _ => {
                two_pairs(true, n, a, b, line, from, to);
                two_pairs(true, n, c, d, middle, from, to);
            }
        }
    } else {
        match n {
            8 => {
                two_pairs(false, 8, a, b, line, from, to);
                two_pairs(false, 8, c, d, middle, from, to);
            }
            16 => {
                two_pairs(false, 16, a, b, line, from, to);
                two_pairs(false, 16, c, d, middle, from, to);
            }
            32 => {
                two_pairs(false, 32, a, b, line, from, to);
                two_pairs(false, 32, c, d, middle, from, to);
            }
            _ => {
                two_pairs(false, n, a, b, line, from, to);
                two_pairs(false, n, c, d, middle, from, to);
            }
        }
    }
}
