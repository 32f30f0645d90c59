// The commands. Places are whole words, as they were read and as they are written back; nothing is asked of them here.
ghost use Rattle.std.specs.Prelude.{◌≡◌, ◌<◌};
ghost use Rattle.command.specs.Commands.{no_effect_line, stored_line, line_of, places_of, command_of};

use crate::table;

// The commands that have no effect on settings: their one parameter is reserved.
#[derive(Clone, Copy)]
pub enum NoEffect {
    Wait,
    InvalidateInstructions,
    InvalidateFloats,
    InvalidateIntegers,
    InvalidateBooleans,
    InvalidateConditional,
    InvalidateInputs,
    FlushOutputs,
    FlushConditional,
}

// What is stored in a window of height 1: the instructions, and the float, integer and boolean constants.
#[derive(Clone, Copy)]
pub enum Stored {
    Instructions,
    Floats,
    Integers,
    Booleans,
}

// Fields stand in document 01's order.
#[derive(Clone, Copy)]
pub enum Command {
    // set_domain: i0, j0, i1, j1; pairs from (i0, j0) to (i1, j1), both ends included.
    Domain(u32, u32, u32, u32),
    // start_program.
    Start,
    // wait_for_idle, the invalidations and the flushes.
    Effectless(NoEffect),
    // set_inst_fmt, set_constf_fmt, set_consti_fmt, set_constb_fmt: base, format.
    Store(Stored, u32, u32),
    // set_inp_fmt, set_out_fmt: number, base, format, height.
    Input(u32, u32, u32, u32),
    Output(u32, u32, u32, u32),
    // set_cond_out_fmt: base, format, height.
    Conditional(u32, u32, u32),
    // set_out_mask, set_cond_out_mask, set_cond_test.
    OutputMask(u32),
    ConditionalMask(u32),
    Test(u32),
}

// A command's parameters in four places; 0 where it has none.
#[derive(Clone, Copy)]
pub struct Places(pub u32, pub u32, pub u32, pub u32);

// The command of a line, with the line's parameters in the first places.
pub fn build(line: u32, p0: u32, p1: u32, p2: u32, p3: u32) -> Command
    requires { line < 21 }
    ensures { result ≡ command_of line p0 p1 p2 p3 }
{
    match line {
        table::SET_DOMAIN => Command::Domain(p0, p1, p2, p3),
        table::START_PROGRAM => Command::Start,
        table::WAIT_FOR_IDLE => Command::Effectless(NoEffect::Wait),
        table::SET_INST_FMT => Command::Store(Stored::Instructions, p0, p1),
        table::SET_INP_FMT => Command::Input(p0, p1, p2, p3),
        table::SET_OUT_FMT => Command::Output(p0, p1, p2, p3),
        table::SET_COND_OUT_FMT => Command::Conditional(p0, p1, p2),
        table::SET_CONSTF_FMT => Command::Store(Stored::Floats, p0, p1),
        table::SET_CONSTI_FMT => Command::Store(Stored::Integers, p0, p1),
        table::SET_CONSTB_FMT => Command::Store(Stored::Booleans, p0, p1),
        table::INVALIDATE_INSTRUCTIONS => Command::Effectless(NoEffect::InvalidateInstructions),
        table::INVALIDATE_FLOATS => Command::Effectless(NoEffect::InvalidateFloats),
        table::INVALIDATE_INTEGERS => Command::Effectless(NoEffect::InvalidateIntegers),
        table::INVALIDATE_BOOLEANS => Command::Effectless(NoEffect::InvalidateBooleans),
        table::INVALIDATE_CONDITIONAL => Command::Effectless(NoEffect::InvalidateConditional),
        table::INVALIDATE_INPUTS => Command::Effectless(NoEffect::InvalidateInputs),
        table::FLUSH_OUTPUTS => Command::Effectless(NoEffect::FlushOutputs),
        table::FLUSH_CONDITIONAL => Command::Effectless(NoEffect::FlushConditional),
        table::SET_OUT_MASK => Command::OutputMask(p0),
        table::SET_COND_OUT_MASK => Command::ConditionalMask(p0),
        _ => Command::Test(p0),
    }
}

// The line of each command without effect, and of each store.
pub fn no_effect_line(what: NoEffect) -> u32
    ensures { result ≡ no_effect_line what }
{
    match what {
        NoEffect::Wait => table::WAIT_FOR_IDLE,
        NoEffect::InvalidateInstructions => table::INVALIDATE_INSTRUCTIONS,
        NoEffect::InvalidateFloats => table::INVALIDATE_FLOATS,
        NoEffect::InvalidateIntegers => table::INVALIDATE_INTEGERS,
        NoEffect::InvalidateBooleans => table::INVALIDATE_BOOLEANS,
        NoEffect::InvalidateConditional => table::INVALIDATE_CONDITIONAL,
        NoEffect::InvalidateInputs => table::INVALIDATE_INPUTS,
        NoEffect::FlushOutputs => table::FLUSH_OUTPUTS,
        NoEffect::FlushConditional => table::FLUSH_CONDITIONAL,
    }
}

pub fn stored_line(what: Stored) -> u32
    ensures { result ≡ stored_line what }
{
    match what {
        Stored::Instructions => table::SET_INST_FMT,
        Stored::Floats => table::SET_CONSTF_FMT,
        Stored::Integers => table::SET_CONSTI_FMT,
        Stored::Booleans => table::SET_CONSTB_FMT,
    }
}

// The line of a command in the table.
pub fn line(command: Command) -> u32
    ensures { result ≡ line_of command }
{
    match command {
        Command::Domain(..) => table::SET_DOMAIN,
        Command::Start => table::START_PROGRAM,
        Command::Effectless(what) => no_effect_line(what),
        Command::Store(what, ..) => stored_line(what),
        Command::Input(..) => table::SET_INP_FMT,
        Command::Output(..) => table::SET_OUT_FMT,
        Command::Conditional(..) => table::SET_COND_OUT_FMT,
        Command::OutputMask(_) => table::SET_OUT_MASK,
        Command::ConditionalMask(_) => table::SET_COND_OUT_MASK,
        Command::Test(_) => table::SET_COND_TEST,
    }
}

// The command's parameters; a reserved parameter is 0.
pub fn fields(command: Command) -> Places
    ensures { result ≡ places_of command }
{
    match command {
        Command::Domain(i0, j0, i1, j1) => Places(i0, j0, i1, j1),
        Command::Start => Places(0, 0, 0, 0),
        Command::Effectless(_) => Places(0, 0, 0, 0),
        Command::Store(_, base, format) => Places(base, format, 0, 0),
        Command::Input(number, base, format, height) => Places(number, base, format, height),
        Command::Output(number, base, format, height) => Places(number, base, format, height),
        Command::Conditional(base, format, height) => Places(base, format, height, 0),
        Command::OutputMask(mask) => Places(mask, 0, 0, 0),
        Command::ConditionalMask(mask) => Places(mask, 0, 0, 0),
        Command::Test(test) => Places(test, 0, 0, 0),
    }
}
