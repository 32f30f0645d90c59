// Flow words for one group of up to 32 processors: the program store, the group's state, a step and a run, as document 01
// has them. A refusal (13 to 16) leaves what was lent as it was.
#![tactic(auto)]

ghost use Rattle.std.specs.Prelude.{◌≡◌};
ghost use Rattle.laws.specs.Below.{count, least};
ghost use Rattle.laws.specs.Masks.{on};
ghost use Rattle.loops.specs.Loops.{loops_told};
ghost use Rattle.group.specs.Proc.{most_processors};
ghost use Rattle.group.specs.Cells.{group_of, GroupGiven};
ghost use Rattle.stepper.specs.Answers.{MoveDone, StepDone, step_in, run_in};
ghost use Rattle.flow.specs.Answers.{BeginDone, LoadDone, RunDone, StepsDone, steps_in};

use group::planes;
use loops::OpenLoops;
use refusal::Refusal;
use stepper::{SlotNumber, Stepped, slot};

// A run's report: steps made, the first active processor (32 if none) and the number of active ones.
#[derive(Clone, Copy)]
pub struct Report {
    pub steps: usize,
    pub first: u32,
    pub active: u32,
}

// The plain slot, which fills a store before its program is loaded.
pub const PLAIN_FIRST: u32 = 0x20;

pub const PLAIN_SECOND: u32 = 0;

// How many slots a program may have: as many as its store.
const STORE_SLOTS: u32 = group::SLOTS as u32;

// How many numbers tell the open loops: the aL shown, and three for each of four loops.
pub const LOOPS_TOLD: usize = 13;

// Kept (design pass 5, C interface): C lends a group's cells and a program's words one by one, here and in each function below.
// Kept (design pass 6, C interface): C lends the first and the second words as two arrays, and says how many of their slots run.
// A step, by itself or in a run (RUN), which then has it inlined: whether it jumped; its next position is then in the cells. A slot of op 0, of which
// most programs are made, doesn't come near the loops.
fn step_at<const RUN: bool>(
    firsts: &[u32; group::SLOTS],
    seconds: &[u32; group::SLOTS],
    slots: u32,
    cells: &mut [u32; group::CELLS],
    alu: u32,
    predicate: u32,
    booleans: u32,
    integers: &[u32],
) -> Result<bool, Refusal>
    requires { GroupGiven cells.old }
    ensures { MoveDone cells.old cells.new result (step_in firsts.now seconds.now slots cells.old alu predicate booleans integers.now) }
{
    let here = cells[group::POSITION];
    if slots <= here {
        return Err(Refusal::Ended);
    }
    if STORE_SLOTS < slots {
        return Err(Refusal::PastEnd);
    }
    let at = here as usize;
    let first = firsts[at];
    let second = seconds[at];
    if slot::permitted(cells[group::MODE], first) {
        if first % slot::OPS == 0 {
            return steps::jump_slot::<RUN>(first, second, slots, cells, alu, predicate, booleans);
        }
        let word = loops::word_at(second / slot::INTEGER % slot::INTEGERS, integers);
        return steps::loop_slot(first, second, slots, cells, word, alu, predicate, booleans);
    }
    Err(Refusal::FlowField)
}

// A step of the group under a program: the first and second words of its slots, how many slots run, and the integer words that
// LOOP and REP take. 16 where the program has ended, 13 for a word that isn't allowed (an integer word too), 14 for the open loops,
// a branch counter or the return stack at its limit, 15 for a jump past the program's end (and where more than 512 slots are to
// run).
pub fn step(
    firsts: &[u32; group::SLOTS],
    seconds: &[u32; group::SLOTS],
    slots: u32,
    cells: &mut [u32; group::CELLS],
    alu: u32,
    predicate: u32,
    booleans: u32,
    integers: &[u32],
) -> Result<Stepped, Refusal>
    requires { GroupGiven cells.old }
    ensures { StepDone cells.old cells.new result (step_in firsts.now seconds.now slots cells.old alu predicate booleans integers.now) }
{
    let jumped = step_at::<false>(
        firsts, seconds, slots, cells, alu, predicate, booleans, integers,
    )?;
    Ok(Stepped {
        jumped,
        next: SlotNumber(cells[group::POSITION]),
    })
}

// Tells the open loops: the aL shown, then for each of four loops, the innermost first, its kind (0 none, 1 LOOP, 3 REP), the turns
// left in it and its aL.
pub fn tell_loops(cells: &[u32; group::CELLS], room: &mut [u32; LOOPS_TOLD])
    requires { GroupGiven cells.now }
    ensures { room.new ≡ loops_told (group_of cells.now).loops }
{
    let l0 = cells[group::LOOP_0];
    let l1 = cells[group::LOOP_1];
    let l2 = cells[group::LOOP_2];
    let l3 = cells[group::LOOP_3];
    *room = [
        loops::shown(OpenLoops { l0, l1, l2, l3 }),
        loops::kind(l0),
        l0 % loops::BYTES,
        l0 / loops::AL % loops::BYTES,
        loops::kind(l1),
        l1 % loops::BYTES,
        l1 / loops::AL % loops::BYTES,
        loops::kind(l2),
        l2 % loops::BYTES,
        l2 / loops::AL % loops::BYTES,
        loops::kind(l3),
        l3 % loops::BYTES,
        l3 / loops::AL % loops::BYTES,
    ];
}

// A fresh group in a mode, 0 full or 1 partial, which it keeps: all its processors active, position 0, no returns. 13 unless the size is
// from 1 to 32 and the mode is one of the two.
pub fn begin(size: u32, mode: u32, cells: &mut [u32; group::CELLS]) -> Result<(), Refusal>
    ensures { BeginDone cells.old cells.new result size mode }
{
    if size < 1 {
        return Err(Refusal::FlowField);
    }
    if group::PROCESSORS < size {
        return Err(Refusal::FlowField);
    }
    if group::PARTIAL < mode {
        return Err(Refusal::FlowField);
    }
    // From the top down, since 1 << 32 would not fit.
    let live = planes::EVERYBODY >> (group::PROCESSORS - size);
    *cells = [0; group::CELLS];
    cells[group::LIVE] = live;
    cells[group::ACTIVE] = live;
    cells[group::MODE] = mode;
    Ok(())
}

// Loads a program into the store, two words a slot, and answers how many slots it has. 15 for no slot, more than 512 or an
// odd number of words. Any words are taken: they are judged when stepped.
pub fn load(
    words: &[u32],
    firsts: &mut [u32; group::SLOTS],
    seconds: &mut [u32; group::SLOTS],
) -> Result<u32, Refusal>
    ensures { LoadDone words.now firsts.old firsts.new seconds.old seconds.new result }
{
    let n = words.len() / 2;
    if words.len() % 2 != 0 {
        return Err(Refusal::PastEnd);
    }
    if n < 1 {
        return Err(Refusal::PastEnd);
    }
    if group::SLOTS < n {
        return Err(Refusal::PastEnd);
    }
    *firsts = [PLAIN_FIRST; group::SLOTS];
    *seconds = [PLAIN_SECOND; group::SLOTS];
    for k in 0..n {
        firsts[k] = words[k * 2];
        seconds[k] = words[k * 2 + 1];
    }
    Ok(n as u32)
}

// The first active processor: the trailing zeros of the mask, 32 where it is empty.
pub fn first_active(active: u32) -> u32
    ensures { result ≡ least most_processors (λ i. on i active) }
{
    u32::trailing_zeros(active)
}

// The number of active processors: the ones of the mask.
pub fn number_active(active: u32) -> u32
    ensures { result ≡ count most_processors (λ i. on i active) }
{
    u32::count_ones(active)
}

// Steps with two masks each, up to the end of the list or of the program, and how many they were: a last alu without its predicate counts as the
// list's end.
fn make_steps(
    firsts: &[u32; group::SLOTS],
    seconds: &[u32; group::SLOTS],
    slots: u32,
    cells: &mut [u32; group::CELLS],
    masks: &[u32],
    booleans: u32,
    integers: &[u32],
) -> Result<usize, Refusal>
    requires { GroupGiven cells.old }
    ensures { StepsDone cells.old cells.new result (steps_in firsts.now seconds.now slots cells.old masks.now booleans integers.now) }
{
    let pairs = masks.len() / 2;
    for made in 0..pairs {
        if slots <= cells[group::POSITION] {
            return Ok(made);
        }
        step_at::<true>(
            firsts,
            seconds,
            slots,
            cells,
            masks[made * 2],
            masks[made * 2 + 1],
            booleans,
            integers,
        )?;
    }
    Ok(pairs)
}

// A run over a list of masks, alu then predicate for each step, with one word of booleans and one list of integer words. It ends with the list or with the
// program. 16 where the program had ended before, whatever the list; where a step is refused, the run gets that number and
// the state is as before the run.
pub fn run(
    firsts: &[u32; group::SLOTS],
    seconds: &[u32; group::SLOTS],
    slots: u32,
    cells: &mut [u32; group::CELLS],
    masks: &[u32],
    booleans: u32,
    integers: &[u32],
) -> Result<Report, Refusal>
    requires { GroupGiven cells.old }
    ensures { RunDone cells.old cells.new result (run_in firsts.now seconds.now slots cells.old masks.now booleans integers.now) }
{
    let position = cells[group::POSITION];
    if slots <= position {
        return Err(Refusal::Ended);
    }
    let mut trial = *cells;
    let steps = make_steps(
        firsts, seconds, slots, &mut trial, masks, booleans, integers,
    )?;
    *cells = trial;
    let active = trial[group::ACTIVE];
    Ok(Report {
        steps,
        first: first_active(active),
        active: number_active(active),
    })
}
