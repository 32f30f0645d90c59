// Whether a command is accepted, by constant tests of its fields. A no leaves open which refusal its fields cause.
ghost use Rattle.std.specs.Prelude.{◌≡◌};
ghost use Rattle.refusal.specs.Told.{is_given};
ghost use Rattle.rules.specs.Writer.{judge_command_of};
ghost use Rattle.command.specs.declared.commands.Command.{Command};

use crate::last::is_window;
use command::kinds::{format_allowed, superfine_allowed};

// A domain whose last pair is in range has all of them in range where its ends are in order.
pub fn domain(i0: u32, j0: u32, i1: u32, j1: u32) -> bool
    ensures { result ≡ is_given (judge_command_of (Command.Domain i0 j0 i1 j1)) }
{
    i1 <= 4095 && j1 <= 4095 && i0 <= i1 && j0 <= j1
}

// Base, format and height by their kinds, and the window that they describe: what the command of a conditional output has.
pub fn window(base: u32, format: u32, height: u32) -> bool
    ensures { result ≡ is_given (judge_command_of (Command.Conditional base format height)) }
{
    base % 2048 == 0 && height <= 8191 && format_allowed(format) && is_window(base, format, height)
}

pub fn input(number: u32, base: u32, format: u32, height: u32) -> bool
    ensures { result ≡ is_given (judge_command_of (Command.Input number base format height)) }
{
    number <= 15 && superfine_allowed(format) && window(base, format, height)
}

pub fn output(number: u32, base: u32, format: u32, height: u32) -> bool
    ensures { result ≡ is_given (judge_command_of (Command.Output number base format height)) }
{
    number <= 3 && window(base, format, height)
}
