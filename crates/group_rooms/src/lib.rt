// Flow words for one group over numbers: each answer is a status, 0 or a refusal's number (13 to 16), with its numbers in rooms
// that the caller lends. A refusal touches no room.
#![tactic(auto)]

ghost use Rattle.std.specs.Prelude.{◌≡◌};
ghost use Rattle.loops.specs.Loops.{loops_told};
ghost use Rattle.stepper.specs.Answers.{step_in, run_in};
ghost use Rattle.group.specs.Cells.{group_of, GroupGiven};
ghost use Rattle.group_rooms.specs.Rooms.{BeginCrosses, LoadCrosses, RunCrosses, StepCrosses};

// Lengths of rooms: a step's way, 1 for a jump or 0 for a stay, and the next position; a run's steps, first active processor and
// how many are active.
pub const STEP_NUMBERS: usize = 2;

pub const REPORT_NUMBERS: usize = 3;

// Loads a program, two words a slot, and says how many slots run; 15.
pub fn load(
    words: &[u32],
    firsts: &mut [u32; group::SLOTS],
    seconds: &mut [u32; group::SLOTS],
    slots: &mut [u32; 1],
) -> u32
    ensures { LoadCrosses words.now result firsts.old firsts.new seconds.old seconds.new slots.old slots.new }
{
    match flow::load(words, firsts, seconds) {
        Err(why) => u32::from(why),
        Ok(n) => {
            *slots = [n];
            0
        }
    }
}

// A fresh group of 1 to 32 processors in a mode, 0 full or 1 partial; 13.
pub fn begin(size: u32, mode: u32, cells: &mut [u32; group::CELLS]) -> u32
    ensures { BeginCrosses size mode result cells.old cells.new }
{
    match flow::begin(size, mode, cells) {
        Err(why) => u32::from(why),
        Ok(()) => 0,
    }
}

// One step, with the integer words of LOOP and REP: 1 for a jump or 0 for a stay, and the next position; 13 to 16.
pub fn step(
    firsts: &[u32; group::SLOTS],
    seconds: &[u32; group::SLOTS],
    slots: u32,
    cells: &mut [u32; group::CELLS],
    alu: u32,
    predicate: u32,
    booleans: u32,
    integers: &[u32],
    taken: &mut [u32; STEP_NUMBERS],
) -> u32
    requires { GroupGiven cells.old }
    ensures { StepCrosses (step_in firsts.now seconds.now slots cells.old alu predicate booleans integers.now) result cells.old cells.new taken.old taken.new }
{
    match flow::step(
        firsts, seconds, slots, cells, alu, predicate, booleans, integers,
    ) {
        Err(why) => u32::from(why),
        Ok(made) => {
            *taken = [u32::from(made.jumped), made.next.0];
            0
        }
    }
}

// A run over a list of masks: the steps made, the first active processor and how many are active; 13 to 16.
pub fn run(
    firsts: &[u32; group::SLOTS],
    seconds: &[u32; group::SLOTS],
    slots: u32,
    cells: &mut [u32; group::CELLS],
    masks: &[u32],
    booleans: u32,
    integers: &[u32],
    report: &mut [u64; REPORT_NUMBERS],
) -> u32
    requires { GroupGiven cells.old }
    ensures { RunCrosses (run_in firsts.now seconds.now slots cells.old masks.now booleans integers.now) result cells.old cells.new report.old report.new }
{
    match flow::run(firsts, seconds, slots, cells, masks, booleans, integers) {
        Err(why) => u32::from(why),
        Ok(ran) => {
            *report = [
                ran.steps as u64,
                u64::from(ran.first),
                u64::from(ran.active),
            ];
            0
        }
    }
}

// The open loops: the aL shown, then for each of four loops, the innermost first, its kind (0 none, 1 LOOP, 3 REP), the turns left
// in it and its aL.
pub fn loops(cells: &[u32; group::CELLS], room: &mut [u32; flow::LOOPS_TOLD])
    requires { GroupGiven cells.now }
    ensures { room.new ≡ loops_told (group_of cells.now).loops }
{
    flow::tell_loops(cells, room)
}
