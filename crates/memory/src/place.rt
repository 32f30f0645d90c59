// Where an element begins in lent memory.
ghost use Rattle.std.specs.Prelude.{◌≡◌};
ghost use Rattle.memory.specs.Elements.{start_of, find_of, told_place};

use address::Translated;
use layout::{ByteAddress, Layout};
use refusal::Refusal;

// The most bytes that lent memory has, and how many bytes have an address, 2^32.
const MOST_BYTES: usize = 65536;

const ADDRESSED: u64 = 0x1_0000_0000;

#[derive(Drop)]
pub enum Place {
    // Counted from memory's first byte.
    At(usize),
    Refused(Refusal),
}

// Where the element at an address begins, or 11: memory is over 65,536 bytes, ends above 2^32, or doesn't hold the whole
// element. Sums are taken at 64 bits, where they can't wrap.
pub fn start(address: ByteAddress, size: u32, first: ByteAddress, length: usize) -> Place
    ensures { told_place result ≡ start_of address.0 size first.0 length }
{
    let at = address.0;
    let low = first.0;
    if MOST_BYTES < length {
        return Place::Refused(Refusal::WrongLength);
    }
    let end = low as u64 + length as u64;
    if ADDRESSED < end {
        return Place::Refused(Refusal::WrongLength);
    }
    if at < low {
        return Place::Refused(Refusal::WrongLength);
    }
    if end < at as u64 + size as u64 {
        return Place::Refused(Refusal::WrongLength);
    }
    Place::At((at - low) as usize)
}

// Where a pair's element begins, or 3, 6, 10 or 11.
pub fn find(layout: Layout, x: u32, y: u32, first: ByteAddress, length: usize) -> Place
    ensures { told_place result ≡ find_of layout x y first.0 length }
{
    match address::translate(layout, x, y) {
        Translated::Refused(why) => Place::Refused(why),
        Translated::At { address, run: _ } => start(address, layout.size, first, length),
    }
}
