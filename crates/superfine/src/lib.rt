// The superfine read: the four elements around a pair, in lent memory. It refuses in document 01's order: 3, 6, 10, 11.
#![tactic(auto)]

mod corners;
mod line;

ghost use Rattle.std.specs.Prelude.{◌≡◌, ◌≤◌};
ghost use Rattle.refusal.specs.Told.{gives};
ghost use Rattle.memory.specs.Answers.{Answered};
ghost use Rattle.superfine.specs.InLine.{PartsAsked, four_parts};
ghost use Rattle.superfine.specs.Superfine.{superfine_read_of, superfine_word, four_of};

use crate::corners::Corners;
use command::kinds::Kind;
use layout::{ByteAddress, Layout};
use memory::place::Place;
use memory::{Reading, copy, place};
use refusal::Refusal;

// Whether base and format word are allowed, the word is superfine and its elements have one channel.
fn superfine_word(base: u32, format: u32) -> bool
    ensures { result ≡ superfine_word base format }
{
    if !command::kinds::is_allowed(Kind::Base, base) {
        return false;
    }
    if !command::kinds::is_allowed(Kind::Format, format) {
        return false;
    }
    if !command::format::superfine(format) {
        return false;
    }
    command::format::channels(command::format::code(format)) == 1
}

// The parts of `n` bytes at four places of memory, one after the other.
fn parts(memory: &[u8], a: usize, b: usize, c: usize, d: usize, n: usize) -> Reading
    requires { PartsAsked memory.now n a b c d }
    ensures { Answered (gives (four_parts memory.now n a b c d)) result }
{
    line::four(
        &memory[a..a + n],
        &memory[b..b + n],
        &memory[c..c + n],
        &memory[d..d + n],
        n,
    )
}

// The elements of `size` bytes at four addresses, one after the other, or 11 where memory is too long, ends too high or
// doesn't hold all of each.
fn four(
    memory: &[u8],
    first: ByteAddress,
    size: u32,
    right: ByteAddress,
    below: ByteAddress,
    across: ByteAddress,
    own: ByteAddress,
) -> Reading
    requires { size ≤ 4 }
    ensures { Answered (four_of first.0 memory.now size right.0 below.0 across.0 own.0) result }
{
    let length = memory.len();
    let Place::At(a) = place::start(right, size, first, length) else {
        return copy::refused(Refusal::WrongLength);
    };
    let Place::At(b) = place::start(below, size, first, length) else {
        return copy::refused(Refusal::WrongLength);
    };
    let Place::At(c) = place::start(across, size, first, length) else {
        return copy::refused(Refusal::WrongLength);
    };
    let Place::At(d) = place::start(own, size, first, length) else {
        return copy::refused(Refusal::WrongLength);
    };
    // the sizes of a superfine read are constants in their arms, so that no loop is left there
    match size {
        2 => parts(memory, a, b, c, d, 2),
        4 => parts(memory, a, b, c, d, 4),
        _ => parts(memory, a, b, c, d, size as usize),
    }
}

// A superfine read: the elements at (x + 1, y), (x, y + 1), (x + 1, y + 1) and (x, y), in that order into channels 0 to 3.
// Base, format word and height say how the window lies. 3 unless base and word are allowed, bit 17 is set and the code has
// one channel; then 6; 10 where one of the four is outside; 11 where memory isn't fit or doesn't hold all four.
pub fn superfine(
    base: ByteAddress,
    format: u32,
    height: u32,
    x: u32,
    y: u32,
    memory: &[u8],
    first: ByteAddress,
) -> Reading
    ensures { Answered (superfine_read_of base.0 format height x y first.0 memory.now) result }
{
    if !superfine_word(base.0, format) {
        return copy::refused(Refusal::Malformed);
    }
    let size = command::format::size(command::format::code(format));
    let layout = Layout {
        base,
        pitch: command::format::pitch(format),
        height,
        size,
        tiled: command::format::tiled(format),
    };
    match corners::addresses(layout, x, y) {
        Corners::Refused(why) => copy::refused(why),
        Corners::At {
            right,
            below,
            across,
            own,
        } => four(memory, first, size, right, below, across, own),
    }
}
