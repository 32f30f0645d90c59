// A step on the words of a slot. The branch operation and the rest of a step are three functions each for the compiler, which inlines functions of this
// length only where one place calls them: a loop's op (LOOP), a step of op 0 in a run (RUN) and one by itself each has its own
// (docs/landings/04-loops.md, "Speed").
#![tactic(auto)]

ghost use Rattle.std.specs.Prelude.{◌≡◌, ◌<◌, ◌≤◌, eqb, length};
ghost use Rattle.laws.specs.Choice.{◌and◌};
ghost use Rattle.laws.specs.Masks.{on};
ghost use Rattle.group.specs.Group.{op_of, jump_step, loop_step, store_slots};
ghost use Rattle.group.specs.Proc.{branched, increment, counter_limit};
ghost use Rattle.group.specs.Cells.{position_in, with_active, group_of, GroupGiven, CellsNamed};
ghost use Rattle.group.specs.Masks.{OwnMasksIn, with_masks, shown_as};
ghost use Rattle.stepper.specs.Answers.{MoveDone, own_limit, limit_by, some_at_limit_by, settled_in, decided_step, set_loops};

use group::planes;
use loops::OpenLoops;
use refusal::Refusal;
use stepper::{SlotNumber, place, slot};

// Whether the operation is an increment that a counter at its limit forbids: at full mode's, the only one of ops 1 to 4, or at that of the cells' mode.
fn forbidden<const LOOP: bool>(op: u32, cells: &[u32; group::CELLS]) -> bool
    ensures { result ≡ (eqb op increment and some_at_limit_by LOOP cells.now) }
{
    if LOOP {
        return planes::over_limit(op, cells);
    }
    planes::over_own_limit(op, cells)
}

// The branch operation on the cells. Without one the planes are neither read nor stored.
// Kept (design pass 7, no plainer): the operation is a code of the slot's word, and each of the two takes masks of its own.
fn branch<const LOOP: bool, const RUN: bool>(
    op: u32,
    count: u32,
    jump: bool,
    active: u32,
    wish: u32,
    cells: &mut [u32; group::CELLS],
)
    requires { (CellsNamed cells.old) × (count < 32) × (OwnMasksIn cells.old active) }
    ensures { cells.new ≡ with_masks cells.old (shown_as (λ i. branched op count jump (on i wish) (with_active cells.old active i))) }
{
    if op == group::DECREMENT {
        let w = planes::lower(
            count,
            cells[group::LIVE],
            active,
            cells[group::PLANE_0],
            cells[group::PLANE_1],
            cells[group::PLANE_2],
            cells[group::PLANE_3],
            cells[group::PLANE_4],
        );
        stepper::put_masks(cells, w);
        return;
    }
    if op == group::INCREMENT {
        let w = planes::raise(
            jump,
            cells[group::LIVE],
            active,
            wish,
            cells[group::PLANE_0],
            cells[group::PLANE_1],
            cells[group::PLANE_2],
            cells[group::PLANE_3],
            cells[group::PLANE_4],
        );
        stepper::put_masks(cells, w);
        return;
    }
    cells[group::ACTIVE] = active;
}

// The rest of a step once B_ELSE, the wishes and the decision are known: branch counters, returns, next position. Nothing is
// stored before every refusal is ruled out. It answers the decision.
fn settle<const LOOP: bool, const RUN: bool>(
    first: u32,
    second: u32,
    slots: u32,
    cells: &mut [u32; group::CELLS],
    active: u32,
    wish: u32,
    jump: bool,
) -> Result<bool, Refusal>
    requires { (GroupGiven cells.old) × (position_in cells.old < slots) × (slots ≤ store_slots) × (OwnMasksIn cells.old active) }
    ensures { MoveDone cells.old cells.new result (settled_in (limit_by LOOP cells.old) slots first second jump wish active cells.old) }
{
    let op = slot::branch_op(first, jump);
    if forbidden::<LOOP>(op, cells) {
        return Err(Refusal::AtLimit);
    }
    place::go(
        first / slot::A_OP % slot::CODES,
        jump,
        SlotNumber(second / slot::ADDRESS % slot::ADDRESSES),
        slots,
        cells,
    )?;
    branch::<LOOP, RUN>(
        op,
        first / slot::B_POP_CNT % slot::B_POP_CNTS,
        jump,
        active,
        wish,
        cells,
    );
    Ok(jump)
}

// A step on the two words of the slot at the position, whatever their op: 13 for the first word's other fields. It answers whether the
// group jumped; its next position is then in the cells. The open loops stay as they are.
fn step_slot<const LOOP: bool, const RUN: bool>(
    first: u32,
    second: u32,
    slots: u32,
    cells: &mut [u32; group::CELLS],
    alu: u32,
    predicate: u32,
    booleans: u32,
    decision: Option<bool>,
) -> Result<bool, Refusal>
    requires { (GroupGiven cells.old) × (position_in cells.old < slots) × (slots ≤ store_slots) }
    ensures { MoveDone cells.old cells.new result (decided_step (limit_by LOOP cells.old) slots first second decision alu predicate booleans (group_of cells.old)) }
{
    if slot::fits_first(first) {
        let was = cells[group::ACTIVE];
        let active = planes::turn_if(first / slot::B_ELSE % slot::FLAGS == 1, was, cells);
        let boolean = (booleans >> (second % slot::BOOLEANS)) % 2;
        let func = first / slot::JUMP_FUNC % slot::JUMP_FUNCS;
        let wish = planes::wishes(func, boolean, alu, predicate);
        let wanted = planes::decides(first / slot::JUMP_ANY % slot::FLAGS == 1, active, wish);
        let jump = decision.unwrap_or(wanted);
        return settle::<LOOP, RUN>(first, second, slots, cells, active, wish, jump);
    }
    Err(Refusal::FlowField)
}

// A step of op 0, document 01's: the wishes decide.
pub fn jump_slot<const RUN: bool>(
    first: u32,
    second: u32,
    slots: u32,
    cells: &mut [u32; group::CELLS],
    alu: u32,
    predicate: u32,
    booleans: u32,
) -> Result<bool, Refusal>
    requires { (GroupGiven cells.old) × (position_in cells.old < slots) × (slots ≤ store_slots) × (op_of first ≡ 0) }
    ensures { MoveDone cells.old cells.new result (jump_step (own_limit cells.old) slots first second alu predicate booleans (group_of cells.old)) }
{
    if slot::plain_second(second) {
        return step_slot::<false, RUN>(first, second, slots, cells, alu, predicate, booleans, None);
    }
    Err(Refusal::FlowField)
}

// Stores the open loops.
fn put_loops(cells: &mut [u32; group::CELLS], loops: OpenLoops)
    ensures { cells.new ≡ set_loops cells.old loops.l0 loops.l1 loops.l2 loops.l3 }
{
    cells[group::LOOP_0] = loops.l0;
    cells[group::LOOP_1] = loops.l1;
    cells[group::LOOP_2] = loops.l2;
    cells[group::LOOP_3] = loops.l3;
}

// A step of ops 1 to 4, with the integer word that an opening takes: the loops decide, and are stored after all else, when no
// refusal can come any more.
pub fn loop_slot(
    first: u32,
    second: u32,
    slots: u32,
    cells: &mut [u32; group::CELLS],
    word: u32,
    alu: u32,
    predicate: u32,
    booleans: u32,
) -> Result<bool, Refusal>
    requires { (GroupGiven cells.old) × (position_in cells.old < slots) × (slots ≤ store_slots) }
    ensures { MoveDone cells.old cells.new result (loop_step counter_limit slots word first second alu predicate booleans (group_of cells.old)) }
{
    if slot::allowed_loop(first, second) {
        let t = loops::turn(
            first % slot::OPS,
            word,
            OpenLoops {
                l0: cells[group::LOOP_0],
                l1: cells[group::LOOP_1],
                l2: cells[group::LOOP_2],
                l3: cells[group::LOOP_3],
            },
        )?;
        let jumped = step_slot::<true, false>(
            first,
            second,
            slots,
            cells,
            alu,
            predicate,
            booleans,
            Some(t.jump),
        )?;
        put_loops(cells, t.loops);
        return Ok(jumped);
    }
    Err(Refusal::FlowField)
}
