// The rules on a whole command, judged at its last parameter: 5 for a domain, 6 for a window.
ghost use Rattle.std.specs.Prelude.{◌≡◌};
ghost use Rattle.refusal.specs.Told.{is_given};
ghost use Rattle.command.specs.Format.{window_of};
ghost use Rattle.command.specs.Kinds.{told_checked};
ghost use Rattle.rules.specs.Rules.{domain_kept, window_kept, last_rule_of};

use command::commands::Command;
use command::format;
use refusal::Refusal;

// Whether a domain's ends are in order.
fn domain_kept(command: Command) -> bool
    ensures { result ≡ domain_kept command }
{
    if let Command::Domain(i0, j0, i1, j1) = command {
        i0 <= i1 && j0 <= j1
    } else {
        true
    }
}

// Whether the window of the three words is accepted.
pub fn is_window(base: u32, format: u32, height: u32) -> bool
    ensures { result ≡ is_given (window_of base format height) }
{
    format::window_of(base, format, height).is_some()
}

// Whether the window that a command describes, if it describes one, is accepted.
fn window_kept(command: Command) -> bool
    ensures { result ≡ window_kept command }
{
    match command {
        Command::Domain(..) => true,
        Command::Start => true,
        Command::Effectless(_) => true,
        Command::Store(_, base, format) => is_window(base, format, 1),
        Command::Input(_, base, format, height) => is_window(base, format, height),
        Command::Output(_, base, format, height) => is_window(base, format, height),
        Command::Conditional(base, format, height) => is_window(base, format, height),
        Command::OutputMask(_) => true,
        Command::ConditionalMask(_) => true,
        Command::Test(_) => true,
    }
}

// The command judged as a whole: fine, 5 or 6. Its words have passed their checks; what they fail there gets 6 here.
pub fn last_rule(command: Command) -> Result<(), Refusal>
    ensures { told_checked result ≡ last_rule_of command }
{
    if !domain_kept(command) {
        return Err(Refusal::DomainCrossed);
    }
    if !window_kept(command) {
        return Err(Refusal::WindowRule);
    }
    Ok(())
}
