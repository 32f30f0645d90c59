// Commands by themselves: how many parameters a header announces, and a command's words.
ghost use Rattle.refusal.specs.Crossing.{Crosses};
ghost use Rattle.command_rooms.specs.Rooms.{parameters_of, CommandCrosses};

// How many parameters a header announces; 2.
#[unsafe(no_mangle)]
pub extern "C" fn egretfold_command_parameters(header: u32, count: &mut [u32; 1]) -> u32
    ensures { Crosses (parameters_of header) result count.old count.new }
{
    command_rooms::parameters(header, count)
}

// The words of the command with this header and these fields to the front of the room, and their number; 2, then the
// writer's 3, 4, 5, 6 and 11. Fields past the command's last aren't read.
#[unsafe(no_mangle)]
pub extern "C" fn egretfold_command_write(
    header: u32,
    fields: &[u32; command_rooms::FIELDS],
    room: &mut [u32],
    written: &mut [u32; 1],
) -> u32
    ensures { CommandCrosses header fields.now result room.old room.new written.old written.new }
{
    command_rooms::write(header, fields, room, written)
}
