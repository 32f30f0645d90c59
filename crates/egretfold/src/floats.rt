// Registers of four f32 channels: the kill test on a group, the maximum and the choice.
ghost use Rattle.std.specs.Prelude.{◌≡◌};
ghost use Rattle.registers.specs.Registers.{maximum_of, choice_of, each_of2, each_of3};
ghost use Rattle.group.specs.Cells.{group_of, GroupGiven};
ghost use Rattle.kill.specs.Kill.{kill_of};
ghost use Rattle.register_rooms.specs.Rooms.{KillCrosses};

// Kills the active processors that have a channel under the write mask less than zero, and says who they are; 11, 13 or 16.
#[unsafe(no_mangle)]
pub extern "C" fn egretfold_group_kill(
    slots: u32,
    cells: &mut [u32; group::CELLS],
    mask: u32,
    registers: &[f32],
    killed: &mut [u32; 1],
) -> u32
    requires { GroupGiven cells.old }
    ensures { KillCrosses (kill_of slots registers.now mask (group_of cells.old)) result cells.old cells.new killed.old killed.new }
{
    register_rooms::kill(slots, cells, mask, registers, killed)
}

// The maximum of two registers of bit patterns, channel by channel: each answer is one of the operands' patterns, a NaN's too.
#[unsafe(no_mangle)]
pub extern "C" fn egretfold_register_maximum(
    a: &[u32; registers::CHANNELS],
    b: &[u32; registers::CHANNELS],
    room: &mut [u32; registers::CHANNELS],
)
    ensures { room.new ≡ each_of2 maximum_of a.now b.now }
{
    register_rooms::maximum(a, b, room)
}

// The choice between two registers of bit patterns by a third one, channel by channel.
#[unsafe(no_mangle)]
pub extern "C" fn egretfold_register_choice(
    a: &[u32; registers::CHANNELS],
    b: &[u32; registers::CHANNELS],
    third: &[u32; registers::CHANNELS],
    room: &mut [u32; registers::CHANNELS],
)
    ensures { room.new ≡ each_of3 choice_of a.now b.now third.now }
{
    register_rooms::choice(a, b, third, room)
}
