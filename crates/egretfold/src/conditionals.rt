// Conditional output tests with a session's settings, in lent memory whose first byte stands at the address `first`. The settings are only
// read, so a stopped session is asked as any other, and nothing of it changes.
ghost use Rattle.state.specs.Cells.{shared_of};
ghost use Rattle.refusal.specs.Crossing.{Crosses};
ghost use Rattle.conditional.specs.Conditional.{test_of};
ghost use Rattle.conditional_rooms.specs.Rooms.{SurveyCrosses};

// Whether the test passes at a pair, as 1 or 0; 7, 3, 10 or 11.
#[unsafe(no_mangle)]
pub extern "C" fn egretfold_conditional_test(
    shared: &[u32; state::SHARED_CELLS],
    value: u32,
    x: u32,
    y: u32,
    memory: &[u8],
    first: u32,
    passed: &mut [u32; 1],
) -> u32
    ensures { Crosses (test_of (shared_of shared.now) value first memory.now x y) result passed.old passed.new }
{
    conditional_rooms::test(shared, value, x, y, memory, first, passed)
}

// The byte of every pair of a domain, row by row, into the room, and how many pass; 7, 3, 5, 10 or 11.
#[unsafe(no_mangle)]
pub extern "C" fn egretfold_conditional_survey(
    shared: &[u32; state::SHARED_CELLS],
    value: u32,
    i0: u32,
    j0: u32,
    i1: u32,
    j1: u32,
    memory: &[u8],
    first: u32,
    room: &mut [u8],
    passed: &mut [u32; 1],
) -> u32
    ensures { SurveyCrosses (shared_of shared.now) value first memory.now i0 j0 i1 j1 result room.old room.new passed.old passed.new }
{
    conditional_rooms::survey(shared, value, i0, j0, i1, j1, memory, first, room, passed)
}
