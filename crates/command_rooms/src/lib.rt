// Commands by themselves over numbers: how many parameters a header announces, and a command's words. Each answer is a status, 0
// or a refusal's number (2 to 6 or 11), with its numbers in rooms that the caller lends. A refusal touches no room.
#![tactic(auto)]

ghost use Rattle.std.specs.Prelude.{◌≡◌, ◌<◌};
ghost use Rattle.refusal.specs.Crossing.{Crosses};
ghost use Rattle.command.specs.Table.{header_of};
ghost use Rattle.command.specs.Commands.{command_of};
ghost use Rattle.rules.specs.Writer.{Wrote};
ghost use Rattle.rules.specs.Written.{told_written};
ghost use Rattle.command_rooms.specs.Rooms.{parameters_of, CommandCrosses};

use command::commands::Places;
use command::{commands, table};
use refusal::Refusal;
use rules::writer;

// The most parameters of a command, and so the length of its fields.
pub const FIELDS: usize = 4;

// How many parameters a header announces; 2.
pub fn parameters(header: u32, count: &mut [u32; 1]) -> u32
    ensures { Crosses (parameters_of header) result count.old count.new }
{
    match table::line_of(header) {
        None => u32::from(Refusal::UnknownHeader),
        Some(line) => {
            *count = [table::count(line)];
            0
        }
    }
}

// How many words the command of a line, whose header is given, has in the room's front; 3, 4, 5, 6 or 11. The tests of the line come
// first, and the fields are asked one by one only for the refusal that they cause.
fn write_line(line: u32, header: u32, places: Places, room: &mut [u32]) -> Result<u32, Refusal>
    requires { (line < 21) × (header ≡ header_of line) }
    ensures { Wrote (command_of line places.0 places.1 places.2 places.3) (told_written result) room.old room.new }
{
    if let Some(words) = line_writer::write(line, header, places, room) {
        return Ok(words);
    }
    let Places(p0, p1, p2, p3) = places;
    let words = writer::write(commands::build(line, p0, p1, p2, p3), room)?;
    Ok(words as u32)
}

// The words of the command with this header and these fields to the front of the room, and their number; 2, then the
// writer's 3, 4, 5, 6 and 11. Fields past the command's last aren't read.
pub fn write(header: u32, fields: &[u32; FIELDS], room: &mut [u32], written: &mut [u32; 1]) -> u32
    ensures { CommandCrosses header fields.now result room.old room.new written.old written.new }
{
    let Some(line) = table::line_of(header) else {
        return u32::from(Refusal::UnknownHeader);
    };
    let places = Places(fields[0], fields[1], fields[2], fields[3]);
    match write_line(line, header, places, room) {
        Err(why) => u32::from(why),
        Ok(words) => {
            *written = [words];
            0
        }
    }
}
