// Single steps: the worked ones, and the edges of each rule.
ghost use Rattle.std.specs.Prelude.{◌≤◌};
ghost use Rattle.group.specs.Cells.{GroupGiven};

use refusal::Refusal;
use std::io;
use worked::tally::Tally;

// What a step answers: whether the group jumped, or the refusal.
pub const JUMPED: Result<bool, Refusal> = Ok(true);

const STAYED: Result<bool, Refusal> = Ok(false);

// A fresh group of a size and in a mode that are allowed.
fn fresh_in(size: u32, mode: u32, cells: &mut [u32; group::CELLS])
    requires { (1 ≤ size) × (size ≤ 32) × (mode ≤ 1) }
    ensures { GroupGiven cells.new }
{
    let _ = flow::begin(size, mode, cells);
}

// The same in full mode.
pub fn fresh(size: u32, cells: &mut [u32; group::CELLS])
    requires { (1 ≤ size) × (size ≤ 32) }
    ensures { GroupGiven cells.new }
{
    fresh_in(size, group::FULL, cells)
}

// One step under a program of four slots, each with these two words.
fn one(
    first: u32,
    second: u32,
    cells: &mut [u32; group::CELLS],
    alu: u32,
    predicate: u32,
    booleans: u32,
) -> Result<bool, Refusal>
    requires { GroupGiven cells.old }
    ensures { GroupGiven cells.new }
{
    let firsts = [first; group::SLOTS];
    let seconds = [second; group::SLOTS];
    flow::step(&firsts, &seconds, 4, cells, alu, predicate, booleans, &[3]).map(|made| made.jumped)
}

// Whether a step gives this answer and leaves these processors active.
fn steps(
    cells: &mut [u32; group::CELLS],
    first: u32,
    second: u32,
    alu: u32,
    answer: Result<bool, Refusal>,
    active: u32,
) -> bool
    requires { GroupGiven cells.old }
    ensures { GroupGiven cells.new }
{
    let given = one(first, second, cells, alu, 0, 0);
    given == answer && cells[group::ACTIVE] == active
}

// C9, C11 and C12, one after the other, and C10.
fn worked(rt: &impl Print) -> io::Result<()> {
    let mut cells = [0u32; group::CELLS];
    fresh(4, &mut cells);
    let c9 = steps(&mut cells, 0x02000F00, 0, 3, STAYED, 3);
    let c11 = steps(&mut cells, 0x00000010, 0, 0, STAYED, 12);
    let c12 = steps(&mut cells, 0x01010020, 0, 0, STAYED, 15);
    Tally::new()
        .with(c9)
        .with(c11)
        .with(c12)
        .print(rt, "C9, C11, C12")?;
    fresh(4, &mut cells);
    let c10 = steps(&mut cells, 0x02000F00, 0, 0, JUMPED, 15);
    Tally::new().with(c10).print(rt, "C10")
}

// Four calls; the fifth (14, though its address is past the end too), and the fifth with a reserved bit too (13).
fn calls(rt: &impl Print) -> io::Result<()> {
    let mut cells = [0u32; group::CELLS];
    fresh(4, &mut cells);
    let first = steps(&mut cells, 0xFF80, 0, 0, JUMPED, 15);
    let second = steps(&mut cells, 0xFF80, 0, 0, JUMPED, 15);
    let third = steps(&mut cells, 0xFF80, 0, 0, JUMPED, 15);
    let fourth = steps(&mut cells, 0xFF80, 0, 0, JUMPED, 15);
    let full = steps(&mut cells, 0xFF80, 0x50000, 0, Err(Refusal::AtLimit), 15);
    let reserved = steps(&mut cells, 0xFF85, 0x50000, 0, Err(Refusal::FlowField), 15);
    Tally::new()
        .with(first)
        .with(second)
        .with(third)
        .with(fourth)
        .with(full)
        .with(reserved)
        .print(rt, "calls")
}

// Two calls, two returns and the third (14).
fn returns(rt: &impl Print) -> io::Result<()> {
    let mut cells = [0u32; group::CELLS];
    fresh(4, &mut cells);
    let called = steps(&mut cells, 0xFF80, 0, 0, JUMPED, 15);
    let again = steps(&mut cells, 0xFF80, 0, 0, JUMPED, 15);
    let back = steps(&mut cells, 0xFF40, 0, 0, JUMPED, 15);
    let first = steps(&mut cells, 0xFF40, 0, 0, JUMPED, 15);
    let empty = steps(&mut cells, 0xFF40, 0, 0, Err(Refusal::AtLimit), 15);
    Tally::new()
        .with(called)
        .with(again)
        .with(back)
        .with(first)
        .with(empty)
        .print(rt, "returns")
}

// A jump past the end (15), a jump to the end, and the step after it (16, though its word has a reserved bit).
fn ends(rt: &impl Print) -> io::Result<()> {
    let mut cells = [0u32; group::CELLS];
    fresh(4, &mut cells);
    let past = steps(&mut cells, 0xFF00, 0x50000, 0, Err(Refusal::PastEnd), 15);
    let to = steps(&mut cells, 0xFF00, 0x40000, 0, JUMPED, 15);
    let after = steps(&mut cells, 0x21, 0, 0, Err(Refusal::Ended), 15);
    Tally::new()
        .with(past)
        .with(to)
        .with(after)
        .print(rt, "to the end and past it")
}

// How often a branch may nest: two processors leave, and then each further branch adds 1 to their counters.
fn nested(mode: u32) -> u32
    requires { mode ≤ 1 }
{
    let mut cells = [0u32; group::CELLS];
    fresh_in(4, mode, &mut cells);
    let _ = one(0x02000F00, 0, &mut cells, 3, 0, 0);
    for deeper in 0u32..100 {
        // The program's four slots are run through over and over, so the position is set back by a jump to slot 0.
        let answer = one(0x0A00FF00, 0, &mut cells, 0, 0, 0);
        if answer == Err(Refusal::AtLimit) {
            return deeper;
        }
    }
    100
}

// What partial mode forbids: an opening without its integer word and a close with nothing open, which full mode gives 13 and 14 for; a push
// and a pop, on a jump and on a stay; and what it allows.
fn partial(rt: &impl Print) -> io::Result<()> {
    let mut cells = [0u32; group::CELLS];
    fresh_in(4, group::PARTIAL, &mut cells);
    let opening = one(0x00000001, 0x00000500, &mut cells, 0, 0, 0);
    let close = one(0x00000002, 0, &mut cells, 0, 0, 0);
    let push = one(0x0000FF80, 0, &mut cells, 0, 0, 0);
    let pop = one(0x0000FF40, 0, &mut cells, 0, 0, 0);
    let kept = one(0x000000A0, 0, &mut cells, 0, 0, 0);
    let plain = one(0x0000FF00, 0, &mut cells, 0, 0, 0);
    Tally::new()
        .with(opening == Err(Refusal::FlowField))
        .with(close == Err(Refusal::FlowField))
        .with(push == Err(Refusal::FlowField))
        .with(pop == Err(Refusal::FlowField))
        .with(kept == Err(Refusal::FlowField))
        .with(plain == JUMPED)
        .print(rt, "partial mode")
}

// B_ELSE leaves nobody active: JUMP_ANY 0 then jumps whatever JUMP_FUNC is, JUMP_ANY 1 stays.
fn nobody(rt: &impl Print) -> io::Result<()> {
    let mut cells = [0u32; group::CELLS];
    fresh(4, &mut cells);
    let turned = steps(&mut cells, 0x10, 0, 0, JUMPED, 0);
    let all = steps(&mut cells, 0, 0, 0, JUMPED, 0);
    let any = steps(&mut cells, 0xFF20, 0, 0, STAYED, 0);
    Tally::new()
        .with(turned)
        .with(all)
        .with(any)
        .print(rt, "nobody active")
}

// Those that B_ELSE idled gain 1 in the same step, so that they wake with the second decrement.
fn idled(rt: &impl Print) -> io::Result<()> {
    let mut cells = [0u32; group::CELLS];
    fresh(4, &mut cells);
    let turned = steps(&mut cells, 0x08000010, 0, 0, JUMPED, 0);
    let lowered = steps(&mut cells, 0x01010020, 0, 0, STAYED, 0);
    let woken = steps(&mut cells, 0x01010020, 0, 0, STAYED, 15);
    Tally::new()
        .with(turned)
        .with(lowered)
        .with(woken)
        .print(rt, "idled and counted up")
}

// Mask bits above the group are ignored: by JUMP_ANY 0 and by JUMP_ANY 1.
fn above(rt: &impl Print) -> io::Result<()> {
    let mut cells = [0u32; group::CELLS];
    fresh(4, &mut cells);
    let all = steps(&mut cells, 0x02000F00, 0, 0xFFFFFFF3, STAYED, 3);
    let any = steps(&mut cells, 0xF020, 0, 0xFFFFFFF0, STAYED, 3);
    Tally::new()
        .with(all)
        .with(any)
        .print(rt, "masks above the group")
}

// One processor with these bits of the masks and this boolean, number 5, under a JUMP_FUNC of one bit.
fn wishes(bit: u32, alu: u32, predicate: u32, boolean: u32) -> Result<bool, Refusal>
    requires { (bit ≤ 7) × (boolean ≤ 1) }
{
    let mut cells = [0u32; group::CELLS];
    fresh(1, &mut cells);
    one(
        0x100u32 << bit,
        5,
        &mut cells,
        alu,
        predicate,
        boolean * 0x20,
    )
}

// Each of JUMP_FUNC's bits is the wish of one choice of alu, predicate and boolean.
fn functions(rt: &impl Print) -> io::Result<()> {
    let mut tally = Tally::new();
    for n in 0u32..64 {
        let bit = n / 8;
        let jumps = wishes(bit, n / 4 % 2, n / 2 % 2, n % 2) == JUMPED;
        tally = tally.with(jumps == (bit == n % 8));
    }
    tally.print(rt, "bits of JUMP_FUNC")
}

// A step on a fresh group with one word that isn't 0, the first or the second.
fn one_word(word: u32, in_first: bool) -> Result<bool, Refusal> {
    let mut cells = [0u32; group::CELLS];
    fresh(4, &mut cells);
    if in_first {
        return one(word, 0, &mut cells, 0, 0, 0);
    }
    one(0, word, &mut cells, 0, 0, 0)
}

// Of the single bits of a word, those of `reserved` get 13 and the others don't.
fn bits(reserved: u32, in_first: bool) -> Tally {
    let mut tally = Tally::new();
    for bit in 0u32..32 {
        let word = 1u32 << bit;
        let refused = one_word(word, in_first) == Err(Refusal::FlowField);
        tally = tally.with(refused == (reserved & word != 0));
    }
    tally
}

// The code 3 of A_OP, B_OP0 and B_OP1.
fn codes(rt: &impl Print) -> io::Result<()> {
    let mut cells = [0u32; group::CELLS];
    fresh(4, &mut cells);
    let returning = steps(&mut cells, 0xC0, 0, 0, Err(Refusal::FlowField), 15);
    let stay = steps(&mut cells, 0x03000000, 0, 0, Err(Refusal::FlowField), 15);
    let jump = steps(&mut cells, 0x0C000000, 0, 0, Err(Refusal::FlowField), 15);
    Tally::new()
        .with(returning)
        .with(stay)
        .with(jump)
        .print(rt, "codes")
}

pub fn run(rt: &impl Print) -> io::Result<()> {
    worked(rt)?;
    calls(rt)?;
    returns(rt)?;
    ends(rt)?;
    Tally::new()
        .with(nested(group::FULL) == 31)
        .with(nested(group::PARTIAL) == 5)
        .print(rt, "nested branches")?;
    partial(rt)?;
    nobody(rt)?;
    idled(rt)?;
    above(rt)?;
    functions(rt)?;
    // Bits 3, 23:21 and 31:28 of the first word (bits 2 to 0 are ops of loops), 15:5 and 31:25 of the second.
    bits(0xF0E00008, true).print(rt, "reserved bits of first words")?;
    bits(0xFE00FFE0, false).print(rt, "reserved bits of second words")?;
    codes(rt)
}
