// The writer by the lines of the table: the words of a command that the tests of its line accept, with no command built and no
// parameter asked by itself. A command that isn't accepted changes nothing here, and its refusal is left open.
#![tactic(auto)]

ghost use Rattle.std.specs.Prelude.{◌≡◌, [], ◌∷◌, ◌<◌, ◌≤◌, take};
ghost use Rattle.refusal.specs.Told.{is_given};
ghost use Rattle.command.specs.declared.commands.Command.{Command};
ghost use Rattle.command.specs.Table.{header_of};
ghost use Rattle.command.specs.Commands.{words_of, command_of};
ghost use Rattle.rules.specs.Writer.{judge_command_of};
ghost use Rattle.line_writer.specs.Tried.{Tried};

use command::commands::Places;
use command::table;
use rules::{fits, writer};

// A header and the first `count` parameters to the front of the room: how many words, or none where they don't fit the command or
// the room. Where `count` is a constant, no test of it is left.
fn place(fits: bool, room: &mut [u32], count: u32, header: u32, places: Places) -> Option<u32>
    requires { (1 ≤ count) × (count ≤ 4) }
    ensures { (c : Command) → fits ≡ is_given (judge_command_of c) → header ∷ take count (places.0 ∷ places.1 ∷ places.2 ∷ places.3 ∷ []) ≡ words_of c → Tried c result room.old room.new }
{
    if !fits {
        return None;
    }
    if room.len() <= count as usize {
        return None;
    }
    writer::put(room, count, header, places);
    Some(count + 1)
}

// The words of the command of a line, whose header is given, with its parameters in the first places: how many, or none where the
// writer refuses it. The lines that aren't named have one reserved parameter.
pub fn write(line: u32, header: u32, places: Places, room: &mut [u32]) -> Option<u32>
    requires { (line < 21) × (header ≡ header_of line) }
    ensures { Tried (command_of line places.0 places.1 places.2 places.3) result room.old room.new }
{
    let Places(p0, p1, p2, p3) = places;
    match line {
        table::SET_DOMAIN => place(fits::domain(p0, p1, p2, p3), room, 4, header, places),
        table::SET_INST_FMT => place(fits::window(p0, p1, 1), room, 2, header, places),
        table::SET_INP_FMT => place(fits::input(p0, p1, p2, p3), room, 4, header, places),
        table::SET_OUT_FMT => place(fits::output(p0, p1, p2, p3), room, 4, header, places),
        table::SET_COND_OUT_FMT => place(fits::window(p0, p1, p2), room, 3, header, places),
        table::SET_CONSTF_FMT => place(fits::window(p0, p1, 1), room, 2, header, places),
        table::SET_CONSTI_FMT => place(fits::window(p0, p1, 1), room, 2, header, places),
        table::SET_CONSTB_FMT => place(fits::window(p0, p1, 1), room, 2, header, places),
        table::SET_OUT_MASK => place(p0 < 65536, room, 1, header, places),
        table::SET_COND_OUT_MASK => place(p0 < 2, room, 1, header, places),
        table::SET_COND_TEST => place(p0 < 8, room, 1, header, places),
        _ => place(true, room, 1, header, Places(0, 0, 0, 0)),
    }
}
