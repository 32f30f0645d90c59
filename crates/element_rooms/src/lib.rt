// Elements in lent memory over numbers, memory's first byte being at the address `first`: each answer is a status, 0 or a
// refusal's number (3, 6, 10 or 11), with its bytes in a room that the caller lends. A refusal touches no room.
#![tactic(auto)]

ghost use Rattle.std.specs.Prelude.{◌≡◌, ◌≤◌, length};
ghost use Rattle.address.specs.Address.{layout_of};
ghost use Rattle.memory.specs.Elements.{read_of};
ghost use Rattle.superfine.specs.Superfine.{superfine_read_of};
ghost use Rattle.refusal.specs.Crossing.{Crosses};
ghost use Rattle.element_rooms.specs.Rooms.{in_sixteen, SuperfineCrosses, WriteCrosses};

use layout::ByteAddress;
use memory::place::Place;
use memory::{Answer, copy, place};
use refusal::Refusal;

// The length of a reading's room: the most bytes of an element, and of the four of a superfine read.
pub const BYTES: usize = 16;

// Reads and writes go by numbers, with the size as a constant in its arm: the translation is one number, so nothing of it goes
// through memory, and each copy is one of a constant length.
//
// The bytes of the element at (x, y), then zeros.
fn read_sized(
    base: u32,
    pitch: u32,
    height: u32,
    size: u32,
    tiled: bool,
    x: u32,
    y: u32,
    memory: &[u8],
    first: u32,
    bytes: &mut [u8; BYTES],
) -> u32
    ensures { Crosses (in_sixteen (read_of (layout_of base pitch height size tiled) x y first memory.now)) result bytes.old bytes.new }
{
    let number = address::translate_numbers(base, pitch, height, size, tiled, x, y);
    if address::REFUSED <= number {
        return (number - address::REFUSED) as u32;
    }
    let at = ByteAddress((number % address::RUN_UNIT) as u32);
    match place::start(at, size, ByteAddress(first), memory.len()) {
        Place::Refused(why) => u32::from(why),
        Place::At(a) => {
            let n = size as usize;
            *bytes = copy::put([0; BYTES], 0, &memory[a..a + n], n);
            0
        }
    }
}

// The bytes of the element at (x, y), then zeros; 3, 6, 10 or 11.
pub fn read(
    base: u32,
    pitch: u32,
    height: u32,
    size: u32,
    tiled: bool,
    x: u32,
    y: u32,
    memory: &[u8],
    first: u32,
    bytes: &mut [u8; BYTES],
) -> u32
    ensures { Crosses (in_sixteen (read_of (layout_of base pitch height size tiled) x y first memory.now)) result bytes.old bytes.new }
{
    match size {
        1 => read_sized(base, pitch, height, 1, tiled, x, y, memory, first, bytes),
        2 => read_sized(base, pitch, height, 2, tiled, x, y, memory, first, bytes),
        4 => read_sized(base, pitch, height, 4, tiled, x, y, memory, first, bytes),
        8 => read_sized(base, pitch, height, 8, tiled, x, y, memory, first, bytes),
        16 => read_sized(base, pitch, height, 16, tiled, x, y, memory, first, bytes),
        _ => u32::from(Refusal::Malformed),
    }
}

// The given bytes, which are `n`, into a part of memory that is as long: through an array of our own, which no other memory
// overlaps, so that a constant number of bytes is read at once and stored at once.
fn store(part: &mut [u8], given: &[u8], n: usize)
    requires { (length part.old ≡ length given.now) × ((n ≡ length given.now) × (n ≤ 16)) }
    ensures { part.new ≡ given.now }
{
    let room = copy::put([0; BYTES], 0, given, n);
    copy::store_all(part, &room[0..n], n);
}

// Stores the element at (x, y).
fn write_sized(
    base: u32,
    pitch: u32,
    height: u32,
    size: u32,
    tiled: bool,
    x: u32,
    y: u32,
    memory: &mut [u8],
    first: u32,
    given: &[u8],
) -> u32
    ensures { WriteCrosses (layout_of base pitch height size tiled) x y first given.now result memory.old memory.new }
{
    let number = address::translate_numbers(base, pitch, height, size, tiled, x, y);
    if address::REFUSED <= number {
        return (number - address::REFUSED) as u32;
    }
    let at = ByteAddress((number % address::RUN_UNIT) as u32);
    match place::start(at, size, ByteAddress(first), memory.len()) {
        Place::Refused(why) => u32::from(why),
        Place::At(a) => {
            let n = size as usize;
            if given.len() != n {
                return u32::from(Refusal::WrongLength);
            }
            store(&mut memory[a..a + n], given, n);
            0
        }
    }
}

// Stores the element at (x, y) and touches no other byte of memory; 3, 6, 10 or 11.
pub fn write(
    base: u32,
    pitch: u32,
    height: u32,
    size: u32,
    tiled: bool,
    x: u32,
    y: u32,
    memory: &mut [u8],
    first: u32,
    given: &[u8],
) -> u32
    ensures { WriteCrosses (layout_of base pitch height size tiled) x y first given.now result memory.old memory.new }
{
    match size {
        1 => write_sized(base, pitch, height, 1, tiled, x, y, memory, first, given),
        2 => write_sized(base, pitch, height, 2, tiled, x, y, memory, first, given),
        4 => write_sized(base, pitch, height, 4, tiled, x, y, memory, first, given),
        8 => write_sized(base, pitch, height, 8, tiled, x, y, memory, first, given),
        16 => write_sized(base, pitch, height, 16, tiled, x, y, memory, first, given),
        _ => u32::from(Refusal::Malformed),
    }
}

// A superfine read: the bytes of the four elements, then zeros, and how many bytes they have; 3, 6, 10 or 11.
pub fn superfine(
    base: u32,
    format: u32,
    height: u32,
    x: u32,
    y: u32,
    memory: &[u8],
    first: u32,
    bytes: &mut [u8; BYTES],
    count: &mut [u32; 1],
) -> u32
    ensures { SuperfineCrosses (superfine_read_of base format height x y first memory.now) result bytes.old bytes.new count.old count.new }
{
    let reading = superfine::superfine(
        ByteAddress(base),
        format,
        height,
        x,
        y,
        memory,
        ByteAddress(first),
    );
    let answer = reading.answer;
    let read = reading.bytes;
    match answer {
        Answer::Refused(why) => u32::from(why),
        Answer::Bytes(n) => {
            *bytes = read;
            *count = [n as u32];
            0
        }
    }
}
