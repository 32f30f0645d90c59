// A reading of four elements, one after the other.
ghost use Rattle.std.specs.Prelude.{◌≡◌, ◌++◌, length};
ghost use Rattle.refusal.specs.Told.{gives};
ghost use Rattle.memory.specs.Answers.{Answered};
ghost use Rattle.superfine.specs.InLine.{FourAsked, in_line};

use memory::{Answer, Reading, copy};

// Four parts of `n` bytes each, one after the other.
fn in_line(a: &[u8], b: &[u8], c: &[u8], d: &[u8], n: usize) -> [u8; 16]
    requires { FourAsked a.now b.now c.now d.now × (n ≡ length a.now) }
    ensures { result ≡ in_line n a.now b.now c.now d.now }
{
    let bytes = copy::put([0; 16], 0, a, n);
    let bytes = copy::put(bytes, n, b, n);
    let bytes = copy::put(bytes, n * 2, c, n);
    copy::put(bytes, n * 3, d, n)
}

// A reading of four elements of one size, one after the other.
pub fn four(a: &[u8], b: &[u8], c: &[u8], d: &[u8], n: usize) -> Reading
    requires { FourAsked a.now b.now c.now d.now × (n ≡ length a.now) }
    ensures { Answered (gives (a.now ++ (b.now ++ (c.now ++ d.now)))) result }
{
    let bytes = in_line(a, b, c, d, n);
    Reading {
        answer: Answer::Bytes(n * 4),
        bytes,
    }
}
