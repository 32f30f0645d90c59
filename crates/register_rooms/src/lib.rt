// The kill test, the maximum and the choice over numbers and lent arrays. A kill answers a status, 0 or a refusal's number (11, 13 or
// 16), and who was killed in a room, which a refusal doesn't touch; the other two answer a register and refuse nothing.
#![tactic(auto)]

ghost use Rattle.std.specs.Prelude.{◌≡◌};
ghost use Rattle.registers.specs.Registers.{maximum_of, choice_of, each_of2, each_of3};
ghost use Rattle.group.specs.Cells.{group_of, GroupGiven};
ghost use Rattle.kill.specs.Kill.{kill_of};
ghost use Rattle.register_rooms.specs.Rooms.{KillCrosses};

// Kills the active processors that have a channel under the write mask less than zero, and says who they are; 11, 13 or 16.
pub fn kill(
    slots: u32,
    cells: &mut [u32; group::CELLS],
    mask: u32,
    registers: &[f32],
    killed: &mut [u32; 1],
) -> u32
    requires { GroupGiven cells.old }
    ensures { KillCrosses (kill_of slots registers.now mask (group_of cells.old)) result cells.old cells.new killed.old killed.new }
{
    match kill::kill(slots, cells, mask, registers) {
        Err(why) => u32::from(why),
        Ok(processors) => {
            *killed = [processors];
            0
        }
    }
}

// The maximum of two registers of bit patterns, channel by channel: each answer is one of the operands' patterns, a NaN's too.
pub fn maximum(
    a: &[u32; registers::CHANNELS],
    b: &[u32; registers::CHANNELS],
    room: &mut [u32; registers::CHANNELS],
)
    ensures { room.new ≡ each_of2 maximum_of a.now b.now }
{
    *room = registers::maximum(a, b);
}

// The choice between two registers of bit patterns by a third one, channel by channel.
pub fn choice(
    a: &[u32; registers::CHANNELS],
    b: &[u32; registers::CHANNELS],
    third: &[u32; registers::CHANNELS],
    room: &mut [u32; registers::CHANNELS],
)
    ensures { room.new ≡ each_of3 choice_of a.now b.now third.now }
{
    *room = registers::choice(a, b, third);
}
