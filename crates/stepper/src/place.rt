// Where a group is in its program: the position and the returns. A refusal leaves the cells
// as they were. The returns are touched by a pop and
// a push alone.
ghost use Rattle.std.specs.Prelude.{◌≡◌, true, ◌<◌, ◌≤◌};
ghost use Rattle.group.specs.Group.{Goes, popped, pushed, way_of, store_slots};
ghost use Rattle.group.specs.Cells.{position_in, group_of, placed_at, GroupGiven, CellsNamed};
ghost use Rattle.stepper.specs.Answers.{GoDone};

use crate::SlotNumber;
use refusal::Refusal;

// Stores a place: the position and the returns.
fn put_place(cells: &mut [u32; group::CELLS], at: SlotNumber, r0: u32, r1: u32, r2: u32, r3: u32)
    requires { CellsNamed cells.old }
    ensures { cells.new ≡ placed_at cells.old at.0 r0 r1 r2 r3 }
{
    cells[group::POSITION] = at.0;
    cells[group::RETURN_0] = r0;
    cells[group::RETURN_1] = r1;
    cells[group::RETURN_2] = r2;
    cells[group::RETURN_3] = r3;
}

// A pop goes to the last return and moves the others down by one; there is none when the first cell is 0.
fn pop(slots: u32, cells: &mut [u32; group::CELLS]) -> Result<(), Refusal>
    requires { GroupGiven cells.old }
    ensures { GoDone cells.old cells.new result slots (popped (group_of cells.old).returns) }
{
    let at = cells[group::RETURN_0];
    if at == 0 {
        return Err(Refusal::AtLimit);
    }
    if slots < at {
        return Err(Refusal::PastEnd);
    }
    let r1 = cells[group::RETURN_1];
    let r2 = cells[group::RETURN_2];
    let r3 = cells[group::RETURN_3];
    put_place(cells, SlotNumber(at), r1, r2, r3, 0);
    Ok(())
}

// A push jumps to the address and moves the returns up by one; there is no room when the fourth cell is taken.
fn push(address: SlotNumber, slots: u32, cells: &mut [u32; group::CELLS]) -> Result<(), Refusal>
    requires { (GroupGiven cells.old) × (position_in cells.old < store_slots) }
    ensures { GoDone cells.old cells.new result slots (pushed (position_in cells.old) address.0 (group_of cells.old).returns) }
{
    let to = address.0;
    if cells[group::RETURN_3] != 0 {
        return Err(Refusal::AtLimit);
    }
    if slots < to {
        return Err(Refusal::PastEnd);
    }
    let position = cells[group::POSITION];
    let r0 = cells[group::RETURN_0];
    let r1 = cells[group::RETURN_1];
    let r2 = cells[group::RETURN_2];
    put_place(cells, address, position + 1, r0, r1, r2);
    Ok(())
}

// A jump that leaves the returns as they are.
fn jump_to(address: SlotNumber, slots: u32, cells: &mut [u32; group::CELLS]) -> Result<(), Refusal>
    requires { GroupGiven cells.old }
    ensures { GoDone cells.old cells.new result slots (Goes address.0 (group_of cells.old).returns) }
{
    if slots < address.0 {
        return Err(Refusal::PastEnd);
    }
    cells[group::POSITION] = address.0;
    Ok(())
}

// Kept (design pass 7, no plainer): A_OP is a code of the slot's word, asked here and nowhere else.
// Goes on. On a jump A_OP 1 pops and 2 pushes; a stay goes on to the next slot, which is never past the end.
pub fn go(
    op: u32,
    jump: bool,
    address: SlotNumber,
    slots: u32,
    cells: &mut [u32; group::CELLS],
) -> Result<(), Refusal>
    requires { (GroupGiven cells.old) × (position_in cells.old < slots) × (slots ≤ store_slots) }
    ensures { GoDone cells.old cells.new result slots (way_of op jump (position_in cells.old) address.0 (group_of cells.old).returns) }
{
    if jump {
        return match op {
            1 => pop(slots, cells),
            2 => push(address, slots, cells),
            _ => jump_to(address, slots, cells),
        };
    }
    let position = cells[group::POSITION];
    cells[group::POSITION] = position + 1;
    Ok(())
}
