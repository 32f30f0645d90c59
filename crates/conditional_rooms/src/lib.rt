// Conditional tests over numbers and a session's settings: each answer is a status, 0 or a refusal's number (7, 3, 5, 10 or 11, asked in
// that order), with what passed in a room that the caller lends. A refusal touches no room, and the settings are only read.
#![tactic(auto)]

ghost use Rattle.std.specs.Prelude.{◌≡◌};
ghost use Rattle.laws.specs.Masks.{digit};
ghost use Rattle.state.specs.Cells.{shared_of};
ghost use Rattle.refusal.specs.Crossing.{Crosses};
ghost use Rattle.conditional.specs.Conditional.{test_of};
ghost use Rattle.conditional_rooms.specs.Rooms.{SurveyCrosses};

use conditional::{Surveyed, Tested};
use layout::ByteAddress;

fn flag_of(passed: bool) -> u32
    ensures { result ≡ digit passed }
{
    if passed { 1 } else { 0 }
}

// Whether the test passes at a pair, as 1 or 0; 7, 3, 10 or 11.
pub fn test(
    shared: &[u32; state::SHARED_CELLS],
    value: u32,
    x: u32,
    y: u32,
    memory: &[u8],
    first: u32,
    passed: &mut [u32; 1],
) -> u32
    ensures { Crosses (test_of (shared_of shared.now) value first memory.now x y) result passed.old passed.new }
{
    match conditional::test(shared, value, x, y, memory, ByteAddress(first)) {
        Tested::Refused(why) => u32::from(why),
        Tested::Result(result) => {
            *passed = [flag_of(result)];
            0
        }
    }
}

// The byte of every pair of a domain, row by row, into the room, and how many pass; 7, 3, 5, 10 or 11.
pub fn survey(
    shared: &[u32; state::SHARED_CELLS],
    value: u32,
    i0: u32,
    j0: u32,
    i1: u32,
    j1: u32,
    memory: &[u8],
    first: u32,
    room: &mut [u8],
    passed: &mut [u32; 1],
) -> u32
    ensures { SurveyCrosses (shared_of shared.now) value first memory.now i0 j0 i1 j1 result room.old room.new passed.old passed.new }
{
    match conditional::survey(shared, value, i0, j0, i1, j1, memory, first, room) {
        Surveyed::Refused(why) => u32::from(why),
        Surveyed::Passed(count) => {
            *passed = [count];
            0
        }
    }
}
