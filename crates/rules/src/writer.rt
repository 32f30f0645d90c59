// The writer: a command's words into lent room, or the refusal that its fields cause. It asks for no session.
ghost use Rattle.std.specs.Prelude.{◌≡◌, [], ◌∷◌, ◌++◌, ◌+◌, ◌<◌, ◌≤◌, length, take, drop};
ghost use Rattle.command.specs.Kinds.{told_checked};
ghost use Rattle.rules.specs.Writer.{places_judged_of, judge_command_of, Wrote};
ghost use Rattle.rules.specs.Written.{told_written};

use crate::last::last_rule;
use command::commands::{Command, Places, fields, line};
use command::kinds::{check, kind_at};
use command::table::{header, parameters};
use refusal::Refusal;

// The parameters of a line, judged by their kinds: 3 before 4. A number stands first in its command and nowhere else, so
// it is asked last. Places past the line's parameters are 0, which passes.
// Kept (design pass 1, may not change; also in `check_command`): a `?` would be shorter, and document 01 names let .. else for the writer.
fn check_places(line: u32, places: Places) -> Result<(), Refusal>
    requires { line < 21 }
    ensures { told_checked result ≡ places_judged_of line places.0 places.1 places.2 places.3 }
{
    let second = check(kind_at(line, 1), places.1);
    let Ok(()) = second else {
        return second;
    };
    let third = check(kind_at(line, 2), places.2);
    let Ok(()) = third else {
        return third;
    };
    let fourth = check(kind_at(line, 3), places.3);
    let Ok(()) = fourth else {
        return fourth;
    };
    check(kind_at(line, 0), places.0)
}

// A command's fields, then the rules on the whole: fine, 3, 4, 5 or 6.
pub fn check_command(command: Command) -> Result<(), Refusal>
    ensures { told_checked result ≡ judge_command_of command }
{
    let checked = check_places(line(command), fields(command));
    let Ok(()) = checked else {
        return checked;
    };
    last_rule(command)
}

// A header and the first `count` parameters to the front of the room.
pub fn put(room: &mut [u32], count: u32, first: u32, places: Places)
    requires { (1 ≤ count) × (count ≤ 4) × (count < length room.old) }
    ensures { room.new ≡ (first ∷ take count (places.0 ∷ places.1 ∷ places.2 ∷ places.3 ∷ [])) ++ drop (count + 1) room.old }
{
    room[0] = first;
    room[1] = places.0;
    if count < 2 {
        return;
    }
    room[2] = places.1;
    if count < 3 {
        return;
    }
    room[3] = places.2;
    if count < 4 {
        return;
    }
    room[4] = places.3;
}

// Writes a command's words to the front of the room and says how many; or the refusal that its fields cause, 3, 4, 5 or 6,
// or 11 where the room is too short. Room past the words isn't touched, and none of it by a refusal.
pub fn write(command: Command, room: &mut [u32]) -> Result<usize, Refusal>
    ensures { Wrote command (told_written result) room.old room.new }
{
    check_command(command)?;
    let line = line(command);
    let count = parameters(line);
    let words = count as usize + 1;
    if room.len() < words {
        return Err(Refusal::WrongLength);
    }
    put(room, count, header(line), fields(command));
    Ok(words)
}
