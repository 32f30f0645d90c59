// Loops: how often a body runs, what closes what, and the aL shown.
ghost use Rattle.group.specs.Cells.{GroupGiven};

use refusal::Refusal;
use std::io;
use worked::tally::Tally;

// The ops.
const LOOP: u32 = 1;

const ENDLOOP: u32 = 2;

const REP: u32 = 3;

const ENDREP: u32 = 4;

// A jump address in a second word.
const ADDRESS: u32 = 0x10000;

// A program of an opening that leaves to slot 3, a plain slot, and a close that goes back to it, with one integer word: the steps
// that a run to its end makes.
fn steps_of(open: u32, close: u32, integer: u32) -> Result<usize, Refusal> {
    let words = [
        open,
        3 * ADDRESS,
        flow::PLAIN_FIRST,
        flow::PLAIN_SECOND,
        close,
        ADDRESS,
    ];
    let mut firsts = [0u32; group::SLOTS];
    let mut seconds = [0u32; group::SLOTS];
    let slots = flow::load(&words, &mut firsts, &mut seconds).unwrap_or(0);
    let mut cells = [0u32; group::CELLS];
    crate::stepping::fresh(4, &mut cells);
    let masks = [0u32; 64];
    flow::run(&firsts, &seconds, slots, &mut cells, &masks, 0, &[integer]).map(
        |report| report.steps,
    )
}

// A loop of count n makes its opening's step, and n times its body's and its close's. A count of 0 leaves at once.
fn counts(rt: &impl Print) -> io::Result<()> {
    Tally::new()
        .with(steps_of(REP, ENDREP, 0) == Ok(1))
        .with(steps_of(REP, ENDREP, 1) == Ok(3))
        .with(steps_of(REP, ENDREP, 5) == Ok(11))
        .with(steps_of(LOOP, ENDLOOP, 0) == Ok(1))
        .with(steps_of(LOOP, ENDLOOP, 1) == Ok(3))
        .with(steps_of(LOOP, ENDLOOP, 5) == Ok(11))
        .print(rt, "turns of a loop")
}

// A close of the other kind gets 14, an integer word with a bit above 23 gets 13, and a REP reads nothing but the count.
fn kinds(rt: &impl Print) -> io::Result<()> {
    Tally::new()
        .with(steps_of(LOOP, ENDREP, 5) == Err(Refusal::AtLimit))
        .with(steps_of(REP, ENDLOOP, 5) == Err(Refusal::AtLimit))
        .with(steps_of(LOOP, ENDLOOP, 0x1000005) == Err(Refusal::FlowField))
        .with(steps_of(REP, ENDREP, 0x1000000) == Err(Refusal::FlowField))
        .with(steps_of(REP, ENDREP, 0x7FFF05) == Ok(11))
        .print(rt, "kinds of loops")
}

// aL may reach 0 and 255; beyond them the close that jumps gets 14, and the last close adds nothing.
fn steps_of_al(rt: &impl Print) -> io::Result<()> {
    Tally::new()
        .with(steps_of(LOOP, ENDLOOP, 0x05FA02) == Ok(5))
        .with(steps_of(LOOP, ENDLOOP, 0x06FA02) == Err(Refusal::AtLimit))
        .with(steps_of(LOOP, ENDLOOP, 0x05FA03) == Err(Refusal::AtLimit))
        .with(steps_of(LOOP, ENDLOOP, 0xFB0502) == Ok(5))
        .with(steps_of(LOOP, ENDLOOP, 0xFA0502) == Err(Refusal::AtLimit))
        .with(steps_of(LOOP, ENDLOOP, 0x06FA01) == Ok(3))
        .print(rt, "aL within 0 to 255")
}

// Opens a loop: every slot has these two words, so that the position doesn't matter.
fn opened(op: u32, second: u32, cells: &mut [u32; group::CELLS]) -> Result<bool, Refusal>
    requires { GroupGiven cells.old }
    ensures { GroupGiven cells.new }
{
    let firsts = [op; group::SLOTS];
    let seconds = [second; group::SLOTS];
    flow::step(
        &firsts,
        &seconds,
        300,
        cells,
        0,
        0,
        0,
        &[0x0702, 3, 0x0904, 5, 0],
    )
    .map(|made| made.jumped)
}

// Opens loops one after the other on a fresh group, each with an integer word of its own and a jump to slot 128: LOOP with aL 7,
// REP, LOOP with aL 9, REP, and what is told then; a fifth one gets 14, and with a count of 0 it jumps.
fn nested(rt: &impl Print) -> io::Result<()> {
    let mut cells = [0u32; group::CELLS];
    crate::stepping::fresh(4, &mut cells);
    let mut room = [0u32; flow::LOOPS_TOLD];
    let _ = opened(LOOP, 0x800000, &mut cells);
    let _ = opened(REP, 0x800100, &mut cells);
    flow::tell_loops(&cells, &mut room);
    let outer = room[0];
    let _ = opened(LOOP, 0x800200, &mut cells);
    let _ = opened(REP, 0x800300, &mut cells);
    flow::tell_loops(&cells, &mut room);
    let full = opened(LOOP, 0x800000, &mut cells);
    let skipped = opened(LOOP, 0x800400, &mut cells);
    Tally::new()
        .with(outer == 7)
        .with(room[0] == 9)
        .with(room[1] == REP && (room[2] == 5 && room[3] == 0))
        .with(room[4] == LOOP && (room[5] == 4 && room[6] == 9))
        .with(room[7] == REP && (room[8] == 3 && room[9] == 0))
        .with(room[10] == LOOP && (room[11] == 2 && room[12] == 7))
        .with(full == Err(Refusal::AtLimit))
        .with(skipped == crate::stepping::JUMPED)
        .print(rt, "nested loops")
}

pub fn run(rt: &impl Print) -> io::Result<()> {
    counts(rt)?;
    kinds(rt)?;
    steps_of_al(rt)?;
    nested(rt)
}
