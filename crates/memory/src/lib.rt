// Elements in lent memory: up to 65,536 bytes that stand at a first address. `read` answers an element's bytes, `write`
// stores them. Each refuses in document 01's order: 3, 6, 10, 11.
#![tactic(auto)]

pub mod copy;
pub mod place;

ghost use Rattle.memory.specs.Answers.{Answered};
ghost use Rattle.memory.specs.Elements.{read_of, Wrote, told_written};

use crate::place::Place;
use layout::{ByteAddress, Layout};
use refusal::Refusal;

#[derive(Clone, Copy)]
pub enum Answer {
    // How many bytes were read.
    Bytes(usize),
    Refused(Refusal),
}

// What a read answers. The bytes stand at the front, in the order of their addresses, and zeros after them. A refusal has
// zeros alone.
#[derive(Clone, Copy)]
pub struct Reading {
    pub answer: Answer,
    pub bytes: [u8; 16],
}

#[derive(Drop)]
pub enum Written {
    Done,
    Refused(Refusal),
}

// The bytes of the element at (x, y) as they stand in memory whose first byte is at `first`; or 3 and 6 for a layout that
// isn't accepted, 10 for a pair outside its window, 11 where memory is too long, ends too high or doesn't hold the whole
// element.
pub fn read(layout: Layout, x: u32, y: u32, memory: &[u8], first: ByteAddress) -> Reading
    ensures { Answered (read_of layout x y first.0 memory.now) result }
{
    match place::find(layout, x, y, first, memory.len()) {
        Place::Refused(why) => copy::refused(why),
        Place::At(a) => {
            let size = layout.size as usize;
            copy::one(&memory[a..a + size])
        }
    }
}

// Stores the element at (x, y), whose bytes are `given`, and touches no other byte of memory; or refuses as `read` does, also
// with 11 for data that isn't the element's size. A refusal touches nothing.
pub fn write(
    layout: Layout,
    x: u32,
    y: u32,
    memory: &mut [u8],
    first: ByteAddress,
    given: &[u8],
) -> Written
    ensures { Wrote layout x y first.0 given.now (told_written result) memory.old memory.new }
{
    match place::find(layout, x, y, first, memory.len()) {
        Place::Refused(why) => Written::Refused(why),
        Place::At(a) => {
            let size = layout.size as usize;
            if given.len() != size {
                return Written::Refused(Refusal::WrongLength);
            }
            copy::store(&mut memory[a..a + size], given);
            Written::Done
        }
    }
}
