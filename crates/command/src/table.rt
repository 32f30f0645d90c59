// The table of commands: 21 lines, each a header and a number of parameters, in the order of the operations 07 to 1B hex. The
// table itself is in `tables`.
ghost use Rattle.std.specs.Prelude.{◌≡◌, ◌<◌};
ghost use Rattle.command.specs.Table.{header_of, count_of, line_with, told_line};

// The lines by the names of their commands.
pub const SET_DOMAIN: u32 = 0;

pub const START_PROGRAM: u32 = 1;

pub const WAIT_FOR_IDLE: u32 = 2;

pub const SET_INST_FMT: u32 = 3;

pub const SET_INP_FMT: u32 = 4;

pub const SET_OUT_FMT: u32 = 5;

pub const SET_COND_OUT_FMT: u32 = 6;

pub const SET_CONSTF_FMT: u32 = 7;

pub const SET_CONSTI_FMT: u32 = 8;

pub const SET_CONSTB_FMT: u32 = 9;

pub const INVALIDATE_INSTRUCTIONS: u32 = 10;

pub const INVALIDATE_FLOATS: u32 = 11;

pub const INVALIDATE_INTEGERS: u32 = 12;

pub const INVALIDATE_BOOLEANS: u32 = 13;

pub const INVALIDATE_CONDITIONAL: u32 = 14;

pub const INVALIDATE_INPUTS: u32 = 15;

pub const FLUSH_OUTPUTS: u32 = 16;

pub const FLUSH_CONDITIONAL: u32 = 17;

pub const SET_OUT_MASK: u32 = 18;

pub const SET_COND_OUT_MASK: u32 = 19;

pub const SET_COND_TEST: u32 = 20;

// The operation of line 0; each later line has the next one.
const FIRST_OPERATION: u32 = 7;

// The header of a line, from the table.
pub fn header(line: u32) -> u32
    requires { line < 21 }
    ensures { result ≡ header_of line }
{
    tables::header_at(line as usize)
}

// The number of parameters of a line, from the table.
pub fn count(line: u32) -> u32
    requires { line < 21 }
    ensures { result ≡ count_of line }
{
    tables::count_at(line as usize)
}

// The number of parameters of a line, for what runs at every word; 0 past the table.
pub fn parameters(line: u32) -> u32
    ensures { result ≡ count_of line }
{
    if SET_COND_TEST < line {
        return 0;
    }
    match line {
        SET_DOMAIN => 4,
        SET_INST_FMT => 2,
        SET_INP_FMT => 4,
        SET_OUT_FMT => 4,
        SET_COND_OUT_FMT => 3,
        SET_CONSTF_FMT => 2,
        SET_CONSTI_FMT => 2,
        SET_CONSTB_FMT => 2,
        _ => 1,
    }
}

// The header of a line, made of its parts, for what runs at every word: 3 in bits 31:30, parameters minus one in 29:16,
// operation in 15:8.
pub fn made_header(line: u32) -> u32
    requires { line < 21 }
    ensures { result ≡ header_of line }
{
    0xC000_0000 + (parameters(line) - 1) * 65536 + (line + FIRST_OPERATION) * 256
}

// The line of a header word, none where it stands in none: document 01's 2. Its operation names the only line that it can be, so
// one compare decides.
pub fn line_of(word: u32) -> Option<u32>
    ensures { told_line result ≡ line_with word }
{
    let operation = word / 256 % 256;
    let line = operation.checked_sub(FIRST_OPERATION)?;
    if line <= SET_COND_TEST && made_header(line) == word {
        Some(line)
    } else {
        None
    }
}
