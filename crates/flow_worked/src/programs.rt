// Groups of every size that decides, programs of every length that decides, and runs.
ghost use Rattle.std.specs.Prelude.{◌≤◌};

use refusal::Refusal;
use std::io;
use worked::tally::Tally;

// The mask of a fresh group.
fn mask_of(size: u32, mode: u32) -> Result<u32, Refusal> {
    let mut cells = [0u32; group::CELLS];
    flow::begin(size, mode, &mut cells)?;
    Ok(cells[group::ACTIVE])
}

fn sizes(rt: &impl Print) -> io::Result<()> {
    Tally::new()
        .with(mask_of(0, group::FULL) == Err(Refusal::FlowField))
        .with(mask_of(1, group::FULL) == Ok(1))
        .with(mask_of(31, group::FULL) == Ok(0x7FFFFFFF))
        .with(mask_of(32, group::FULL) == Ok(0xFFFFFFFF))
        .with(mask_of(33, group::FULL) == Err(Refusal::FlowField))
        .print(rt, "sizes of groups")
}

fn modes(rt: &impl Print) -> io::Result<()> {
    Tally::new()
        .with(mask_of(4, group::FULL) == Ok(15))
        .with(mask_of(4, group::PARTIAL) == Ok(15))
        .with(mask_of(4, 2) == Err(Refusal::FlowField))
        .with(mask_of(33, group::PARTIAL) == Err(Refusal::FlowField))
        .print(rt, "modes of groups")
}

// The slots of a program of these words.
fn slots_of(words: &[u32]) -> Result<u32, Refusal> {
    let mut firsts = [0u32; group::SLOTS];
    let mut seconds = [0u32; group::SLOTS];
    flow::load(words, &mut firsts, &mut seconds)
}

fn lengths(rt: &impl Print) -> io::Result<()> {
    let words = [0u32; 1026];
    Tally::new()
        .with(slots_of(&words[..0]) == Err(Refusal::PastEnd))
        .with(slots_of(&words[..2]) == Ok(1))
        .with(slots_of(&words[..3]) == Err(Refusal::PastEnd))
        .with(slots_of(&words[..1024]) == Ok(512))
        .with(slots_of(&words[..1025]) == Err(Refusal::PastEnd))
        .with(slots_of(&words) == Err(Refusal::PastEnd))
        .print(rt, "lengths of programs")
}

// What a run of a program on a fresh group of four reports: its steps, the first active processor and the number of active ones.
fn report(
    words: &[u32],
    masks: &[u32],
    cells: &mut [u32; group::CELLS],
) -> Result<(usize, u32, u32), Refusal> {
    let mut firsts = [0u32; group::SLOTS];
    let mut seconds = [0u32; group::SLOTS];
    let slots = flow::load(words, &mut firsts, &mut seconds)?;
    crate::stepping::fresh(4, cells);
    let ran = flow::run(&firsts, &seconds, slots, cells, masks, 0, &[3])?;
    Ok((ran.steps, ran.first, ran.active))
}

// Whether a run of a program on a fresh group of four reports this and ends at this position.
fn runs(
    words: &[u32],
    masks: &[u32],
    wanted: Result<(usize, u32, u32), Refusal>,
    position: u32,
) -> bool {
    let mut cells = [0u32; group::CELLS];
    report(words, masks, &mut cells) == wanted && cells[group::POSITION] == position
}

// Four processors, the condition true for 0 and 1 (alu 0011).
//   0 IF     jumps to 3 where nobody has the condition; those without it leave       active 0011
//   1        the branch's body                                                       active 0011
//   2 ELSE   turns the group, jumps to 4 where nobody is left                        active 1100
//   3        the other body                                                          active 1100
//   4 ENDIF  counters lose 1, all wake                                               active 1111, the program's end
// With the condition true for nobody the group goes 0, 3, 4. Nine masks are four steps.
fn branches(rt: &impl Print) -> io::Result<()> {
    let program = [
        0x0A000F00,
        0x30000,
        flow::PLAIN_FIRST,
        flow::PLAIN_SECOND,
        0x10,
        0x40000,
        flow::PLAIN_FIRST,
        flow::PLAIN_SECOND,
        0x01010020,
        0,
    ];
    let masks = [3, 0, 0, 0, 0, 0, 0, 0, 0, 0, 0, 0, 0, 0];
    Tally::new()
        .with(runs(&program, &masks[..10], Ok((5, 0, 4)), 5))
        .with(runs(&program, &masks, Ok((5, 0, 4)), 5))
        .with(runs(&program, &masks[..9], Ok((4, 2, 2)), 4))
        .with(runs(&program, &masks[2..], Ok((3, 0, 4)), 5))
        .print(rt, "if, else, endif")?;
    Tally::new()
        .with(runs(&program, &masks[..0], Ok((0, 0, 4)), 0))
        .with(runs(&program, &masks[..1], Ok((0, 0, 4)), 0))
        .print(rt, "short lists")
}

// 0 calls slot 2; 2 is the body; 3 returns to 1; 1 jumps to the program's end. And a program whose second slot isn't allowed:
// the run gets 13 and the position is 0 as before.
fn calls(rt: &impl Print) -> io::Result<()> {
    let program = [
        0xFF80,
        0x20000,
        0xFF00,
        0x40000,
        flow::PLAIN_FIRST,
        flow::PLAIN_SECOND,
        0xFF40,
        0,
    ];
    let masks = [0, 0, 0, 0, 0, 0, 0, 0];
    Tally::new()
        .with(runs(&program, &masks, Ok((4, 0, 4)), 4))
        .print(rt, "call and return")?;
    let bad = [flow::PLAIN_FIRST, flow::PLAIN_SECOND, 5, 0];
    Tally::new()
        .with(runs(&bad, &masks, Err(Refusal::FlowField), 0))
        .print(rt, "refused whole")
}

// A run that ends its program of one plain slot, and then another one with no masks at all, which gets 16.
fn again() -> Option<Refusal> {
    let mut firsts = [0u32; group::SLOTS];
    let mut seconds = [0u32; group::SLOTS];
    let words = [flow::PLAIN_FIRST, flow::PLAIN_SECOND];
    let _ = flow::load(&words, &mut firsts, &mut seconds);
    let mut cells = [0u32; group::CELLS];
    crate::stepping::fresh(4, &mut cells);
    let masks = [0, 0];
    let _ = flow::run(&firsts, &seconds, 1, &mut cells, &masks, 0, &[3]);
    flow::run(&firsts, &seconds, 1, &mut cells, &masks[..0], 0, &[3]).err()
}

// Whether a run reports this first active processor and this number of them where its mask is `mask`.
fn tells(mask: u32, first: u32, number: u32) -> bool {
    flow::first_active(mask) == first && flow::number_active(mask) == number
}

// The empty mask, the full one, and every mask of one processor.
fn counts(rt: &impl Print) -> io::Result<()> {
    let mut tally = Tally::new()
        .with(tells(0, 32, 0))
        .with(tells(0xFFFFFFFF, 0, 32));
    for bit in 0u32..32 {
        tally = tally.with(tells(1u32 << bit, bit, 1));
    }
    tally.print(rt, "first active and number active")
}

pub fn run(rt: &impl Print) -> io::Result<()> {
    sizes(rt)?;
    modes(rt)?;
    lengths(rt)?;
    branches(rt)?;
    calls(rt)?;
    Tally::new()
        .with(again() == Some(Refusal::Ended))
        .print(rt, "a run after the end")?;
    counts(rt)
}
