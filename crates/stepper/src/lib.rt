// A step of a group on its cells, answered by whether it jumped. A refusal (13 to 16) leaves the cells as they were.
#![tactic(auto)]

pub mod place;
pub mod slot;

ghost use Rattle.std.specs.Prelude.{◌≡◌};
ghost use Rattle.group.specs.Cells.{CellsNamed};
ghost use Rattle.group.specs.Masks.{with_masks};

use group::planes::Branched;

// The number of a slot: one of document 01's three kinds of number, never a byte address or a word's position.
#[derive(Clone, Copy)]
pub struct SlotNumber(pub u32);

// A step that was made: whether the group jumped or stayed, and the slot that it goes on at.
#[derive(Clone, Copy)]
pub struct Stepped {
    pub jumped: bool,
    pub next: SlotNumber,
}

// Stores the active processors and the planes of the branch counters.
pub fn put_masks(cells: &mut [u32; group::CELLS], w: Branched)
    requires { CellsNamed cells.old }
    ensures { cells.new ≡ with_masks cells.old w }
{
    cells[group::ACTIVE] = w.active;
    cells[group::PLANE_0] = w.p0;
    cells[group::PLANE_1] = w.p1;
    cells[group::PLANE_2] = w.p2;
    cells[group::PLANE_3] = w.p3;
    cells[group::PLANE_4] = w.p4;
}
