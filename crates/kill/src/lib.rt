// The kill test on a group (request 11, the guide's TEX_INST_KILL_LT_0): an active processor with a channel under the write mask less
// than zero leaves the group for good. The killed are taken out of the group's own mask, so that a step, which knows nothing of
// them, skips them as it does every processor that a group doesn't have; a mask of their own keeps who they were. A refusal (16, 13 or
// 11) leaves the cells as they were.
#![tactic(auto)]

ghost use Rattle.std.specs.Prelude.{◌≡◌, not, ◌*◌, set};
ghost use Rattle.laws.specs.Choice.{◌and◌};
ghost use Rattle.laws.specs.Below.{count};
ghost use Rattle.laws.specs.Masks.{◌or◌, on, pack};
ghost use Rattle.registers.specs.Registers.{channel_count};
ghost use Rattle.group.specs.Proc.{most_processors};
ghost use Rattle.group.specs.Cells.{group_of, GroupGiven};
ghost use Rattle.kill.specs.Kill.{kill_of};
ghost use Rattle.kill.specs.Answers.{KillDone, TakesOut, TakenOut};

use refusal::Refusal;

// The highest write mask: a bit for each of four channels.
const ALL_CHANNELS: u32 = 15;

// How many channels the registers of the starting group have: of those in the group and of the killed.
fn channels(live: u32, killed: u32) -> usize
    ensures { result ≡ count most_processors (λ i. on i live or on i killed) * channel_count }
{
    let started = u32::count_ones(live | killed);
    started as usize * registers::CHANNELS
}

// Those of both masks.
// Kept (design pass 4, no plainer): this and the next two say of which processors an operator on masks tells.
fn both(a: u32, b: u32) -> u32
    ensures { result ≡ pack most_processors (λ i. on i a and on i b) }
{
    a & b
}

// Those of the first mask that aren't of the second.
fn without(a: u32, b: u32) -> u32
    ensures { result ≡ pack most_processors (λ i. on i a and not (on i b)) }
{
    a & !b
}

// Those of either mask.
fn either(a: u32, b: u32) -> u32
    ensures { result ≡ pack most_processors (λ i. on i a or on i b) }
{
    a | b
}

// Stores who is in the group, who is active and who was killed.
fn put(cells: &mut [u32; group::CELLS], live: u32, active: u32, killed: u32)
    ensures { cells.new ≡ set (set (set cells.old 0 live) 1 active) 13 killed }
{
    cells[group::LIVE] = live;
    cells[group::ACTIVE] = active;
    cells[group::KILLED] = killed;
}

// Takes the active processors whose registers kill out of the group, and answers who they are.
fn take_out(mask: u32, registers: &[f32], cells: &mut [u32; group::CELLS]) -> u32
    requires { TakesOut cells.old registers.now }
    ensures { TakenOut cells.old cells.new registers.now mask result }
{
    let live = cells[group::LIVE];
    let active = cells[group::ACTIVE];
    let killed = cells[group::KILLED];
    let gone = both(active, registers::kill_mask(registers, mask));
    put(
        cells,
        without(live, gone),
        without(active, gone),
        either(killed, gone),
    );
    gone
}

// Kills the active processors of a group that have a channel under the write mask less than zero; `slots` of the program run, and the
// registers are four channels for each processor of the group as it began. 16 where the program has ended, 13 for a write mask
// over 15, 11 where the registers aren't the starting group's, in that order.
pub fn kill(
    slots: u32,
    cells: &mut [u32; group::CELLS],
    mask: u32,
    registers: &[f32],
) -> Result<u32, Refusal>
    requires { GroupGiven cells.old }
    ensures { KillDone cells.old cells.new result (kill_of slots registers.now mask (group_of cells.old)) }
{
    if slots <= cells[group::POSITION] {
        return Err(Refusal::Ended);
    }
    if ALL_CHANNELS < mask {
        return Err(Refusal::FlowField);
    }
    if registers.len() != channels(cells[group::LIVE], cells[group::KILLED]) {
        return Err(Refusal::WrongLength);
    }
    Ok(take_out(mask, registers, cells))
}
