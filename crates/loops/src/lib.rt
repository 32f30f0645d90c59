// The open loops of a group (request 4): four cells, the innermost loop first, 0 for none. A LOOP lies in its cell as its integer
// word with the turns left for the count and its aL for the start, and bit 24 set; a REP is its turns left. An opening or a close
// answers its decision, to jump or to stay, with the loops then, or a refusal (13 or 14).
#![tactic(auto)]

ghost use Rattle.std.specs.Prelude.{◌≡◌, true, false, ◌<◌};
ghost use Rattle.loops.specs.Loops.{loops_by, loop_cell, entry_of, word_at, entering, opening, closing, turn_of, shown_aL, stays, moved_to, kind_at, HeldBy, turned};

use refusal::Refusal;

// The cells of the open loops, the innermost first, 0 where there is none.
#[derive(Clone, Copy)]
pub struct OpenLoops {
    pub l0: u32,
    pub l1: u32,
    pub l2: u32,
    pub l3: u32,
}

// The decision, to jump or to stay, and the open loops then.
#[derive(Clone, Copy)]
pub struct Turned {
    pub jump: bool,
    pub loops: OpenLoops,
}

// A field of an integer word, and of a LOOP's cell, is divided by its lowest bit: the count, aL, its step. Each is a byte.
pub const BYTES: u32 = 256;

pub const AL: u32 = 0x100;

const STEP: u32 = 0x10000;

// What tells a LOOP's cell from a REP's, which is at most 255. An integer word is below it.
const LOOPING: u32 = 0x1000000;

// From here on a step is negative: itself less 256.
const NEGATIVE: u32 = 128;

// No integer word: its bits 31:24 aren't 0.
const NO_WORD: u32 = 0xFFFFFFFF;

// The ops that open a loop, which its kind is told as, and the one that closes a LOOP; 4 closes a REP.
const LOOP_OP: u32 = 1;

const ENDLOOP_OP: u32 = 2;

const REP_OP: u32 = 3;

// The integer word of a number, or one that no opening allows where the list has none.
pub fn word_at(number: u32, words: &[u32]) -> u32
    ensures { result ≡ word_at number words.now }
{
    let at = number as usize;
    if at < words.len() {
        return words[at];
    }
    NO_WORD
}

// The cell of a loop that opens with an integer word.
fn entry(looping: bool, word: u32) -> u32
    requires { word < 16777216 }
    ensures { result ≡ loop_cell (entry_of looping word) }
{
    if looping {
        return word + LOOPING;
    }
    word % BYTES
}

// Opens a loop with an allowed integer word: a count of 0 jumps, a fifth loop gets 14.
fn enter(looping: bool, word: u32, loops: OpenLoops) -> Result<Turned, Refusal>
    requires { (word < 16777216) × HeldBy loops }
    ensures { result ≡ turned (entering looping word (loops_by loops)) }
{
    let OpenLoops { l0, l1, l2, l3 } = loops;
    if word % BYTES == 0 {
        return Ok(Turned { jump: true, loops });
    }
    if l3 != 0 {
        return Err(Refusal::AtLimit);
    }
    Ok(Turned {
        jump: false,
        loops: OpenLoops {
            l0: entry(looping, word),
            l1: l0,
            l2: l1,
            l3: l2,
        },
    })
}

// Opens a LOOP or a REP with an integer word: 13 where the word isn't allowed, whatever its count, and before 14.
fn open(looping: bool, word: u32, loops: OpenLoops) -> Result<Turned, Refusal>
    requires { HeldBy loops }
    ensures { result ≡ turned (opening looping word (loops_by loops)) }
{
    if word < LOOPING {
        return enter(looping, word, loops);
    }
    Err(Refusal::FlowField)
}

// Whether aL stays within 0 to 255 when the step is added.
fn within(al: u32, step: u32) -> bool
    requires { (al < 256) × (step < 256) }
    ensures { result ≡ stays al step }
{
    if step < NEGATIVE {
        return al + step < BYTES;
    }
    BYTES <= al + step
}

// aL when the step is added.
fn moved(al: u32, step: u32) -> u32
    requires { (al < 256) × (step < 256) × (stays al step ≡ true) }
    ensures { (result ≡ moved_to al step) × (result < 256) }
{
    if step < NEGATIVE {
        return al + step;
    }
    al + step - BYTES
}

// Closes a REP: 14 where none is open or the innermost loop is a LOOP.
fn close_rep(loops: OpenLoops) -> Result<Turned, Refusal>
    requires { HeldBy loops }
    ensures { result ≡ turned (closing false (loops_by loops)) }
{
    let OpenLoops { l0, l1, l2, l3 } = loops;
    if l0 == 0 {
        return Err(Refusal::AtLimit);
    }
    if LOOPING <= l0 {
        return Err(Refusal::AtLimit);
    }
    if l0 == 1 {
        return Ok(Turned {
            jump: false,
            loops: OpenLoops {
                l0: l1,
                l1: l2,
                l2: l3,
                l3: 0,
            },
        });
    }
    Ok(Turned {
        jump: true,
        loops: OpenLoops {
            l0: l0 - 1,
            l1,
            l2,
            l3,
        },
    })
}

// Closes a LOOP: 14 where none is open or the innermost loop is a REP, and where a jump would lead aL out of 0 to 255.
fn close_loop(loops: OpenLoops) -> Result<Turned, Refusal>
    requires { HeldBy loops }
    ensures { result ≡ turned (closing true (loops_by loops)) }
{
    let OpenLoops { l0, l1, l2, l3 } = loops;
    if l0 < LOOPING {
        return Err(Refusal::AtLimit);
    }
    let count = l0 % BYTES;
    if count == 1 {
        return Ok(Turned {
            jump: false,
            loops: OpenLoops {
                l0: l1,
                l1: l2,
                l2: l3,
                l3: 0,
            },
        });
    }
    let al = l0 / AL % BYTES;
    let step = l0 / STEP % BYTES;
    if within(al, step) {
        let next = moved(al, step);
        return Ok(Turned {
            jump: true,
            loops: OpenLoops {
                l0: count - 1 + AL * next + STEP * step + LOOPING,
                l1,
                l2,
                l3,
            },
        });
    }
    Err(Refusal::AtLimit)
}

// Kept (design pass 7, no plainer): the op is a code of the slot's word, asked here and nowhere else.
// What the op of a slot makes of the open loops, an opening with its integer word.
pub fn turn(op: u32, word: u32, loops: OpenLoops) -> Result<Turned, Refusal>
    requires { HeldBy loops }
    ensures { result ≡ turned (turn_of op word (loops_by loops)) }
{
    if op == LOOP_OP {
        return open(true, word, loops);
    }
    if op == REP_OP {
        return open(false, word, loops);
    }
    if op == ENDLOOP_OP {
        return close_loop(loops);
    }
    close_rep(loops)
}

// The aL shown: the innermost open LOOP's, 0 if none is open. A REP hides no LOOP.
pub fn shown(loops: OpenLoops) -> u32
    requires { HeldBy loops }
    ensures { result ≡ shown_aL (loops_by loops) }
{
    let OpenLoops { l0, l1, l2, l3 } = loops;
    if LOOPING <= l0 {
        return l0 / AL % BYTES;
    }
    if LOOPING <= l1 {
        return l1 / AL % BYTES;
    }
    if LOOPING <= l2 {
        return l2 / AL % BYTES;
    }
    if LOOPING <= l3 {
        return l3 / AL % BYTES;
    }
    0
}

// A loop's kind by its cell: 0 where there is none.
// Kept (design pass 1, C interface): the open loops are told in numbers, 0 none, 1 LOOP, 3 REP.
pub fn kind(cell: u32) -> u32
    ensures { result ≡ kind_at cell }
{
    if cell == 0 {
        return 0;
    }
    if LOOPING <= cell {
        return LOOP_OP;
    }
    REP_OP
}
