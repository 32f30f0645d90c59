// A party's own cells: the stop, the words taken, the open command, the domain, the instruction format, and what the settings
// alone give a start.
ghost use Rattle.std.specs.Prelude.{◌≡◌, ◌+◌, ◌<◌, ◌≤◌, []};
ghost use Rattle.state.specs.State.{at_line, none};
ghost use Rattle.state.specs.Effects.{buffer, domain_from, limit, opening, stop as stopped, took, took_words, with_domain, with_instructions, with_parameter};
ghost use Rattle.state.specs.Effects.{gauge_from, window_from, with_gauge, with_number, with_readiness, with_window};
ghost use Rattle.state.specs.Cells.{party_of, party_cells};

// A word's place in a piece or in a session, counted from 0: one of document 01's three kinds of number, never a byte
// address or a slot number.
#[derive(Drop)]
pub struct WordPosition(pub u64);

// Places of the cells.
pub const STOPPED: usize = 0;

pub const TAKEN: usize = 1;

pub const LINE: usize = 2;

pub const COUNT: usize = 3;

pub const PARAMETER_0: usize = 4;

pub const PARAMETER_1: usize = 5;

pub const PARAMETER_2: usize = 6;

pub const PARAMETER_3: usize = 7;

pub const DOMAIN: usize = 8;

pub const DOMAIN_I0: usize = 9;

pub const DOMAIN_J0: usize = 10;

pub const DOMAIN_I1: usize = 11;

pub const DOMAIN_J1: usize = 12;

pub const INSTRUCTIONS: usize = 13;

pub const INSTRUCTIONS_BASE: usize = 14;

pub const INSTRUCTIONS_FORMAT: usize = 15;

pub const INSTRUCTIONS_HEIGHT: usize = 16;

// What the party owns, a bit for each number.
pub const MINE: usize = 17;

// The edition of the lease rule, fixed when the session begins.
pub const EDITION: usize = 18;

// The number that the settings alone give a start: 0, 7, 8 or 9.
pub const READINESS: usize = 19;

// What the outputs ask of a domain and give for a pair: whether one is set; the least row step and height of those that count,
// whether no two of these share a byte, and the elements that a pair claims.
pub const SOME: usize = 20;

pub const COLUMNS: usize = 21;

pub const ROWS: usize = 22;

pub const APART: usize = 23;

pub const CREDIT: usize = 24;

// Each output's row step and span.
pub const STEP_0: usize = 25;

pub const SPAN_0: usize = 26;

pub const STEP_1: usize = 27;

pub const SPAN_1: usize = 28;

pub const STEP_2: usize = 29;

pub const SPAN_2: usize = 30;

pub const STEP_3: usize = 31;

pub const SPAN_3: usize = 32;

// The line that stands for no open command: one past the table.
pub const NO_LINE: u32 = 21;

// No command is open.
pub fn close(own: &mut [u32; crate::OWN_CELLS])
    ensures { own.new ≡ party_cells (opening none (party_of own.old [])) }
{
    own[LINE] = NO_LINE;
    own[COUNT] = 0;
    own[PARAMETER_0] = 0;
    own[PARAMETER_1] = 0;
    own[PARAMETER_2] = 0;
    own[PARAMETER_3] = 0;
}

// The session is stopped and its open command dropped.
pub fn stop(own: &mut [u32; crate::OWN_CELLS])
    ensures { own.new ≡ party_cells (stopped (party_of own.old [])) }
{
    own[STOPPED] = 1;
    close(own);
}

// One more word is taken.
pub fn count_word(own: &mut [u32; crate::OWN_CELLS])
    requires { (party_of own.old []).taken < limit }
    ensures { own.new ≡ party_cells (took (party_of own.old [])) }
{
    own[TAKEN] = own[TAKEN] + 1;
}

// So many words more are taken.
pub fn count_words(own: &mut [u32; crate::OWN_CELLS], words: u32)
    requires { (party_of own.old []).taken + words ≤ limit }
    ensures { own.new ≡ party_cells (took_words words (party_of own.old [])) }
{
    own[TAKEN] = own[TAKEN] + words;
}

// A header is taken: the command of this line is open.
pub fn open_line(own: &mut [u32; crate::OWN_CELLS], line: u32)
    requires { ((party_of own.old []).taken < limit) × ((party_of own.old []).opened ≡ none) }
    ensures { own.new ≡ party_cells (took (opening (at_line line) (party_of own.old []))) }
{
    own[LINE] = line;
    count_word(own);
}

// The next parameter of the open command, of which `count` were there.
pub fn place(own: &mut [u32; crate::OWN_CELLS], count: u32, word: u32)
    requires { (count < 4) × ((party_of own.old []).opened.count ≡ count) }
    ensures { own.new ≡ party_cells (opening (with_parameter (party_of own.old []).opened word) (party_of own.old [])) }
{
    let at = PARAMETER_0 + count as usize;
    own[at] = word;
    own[COUNT] = count + 1;
}

pub fn set_domain(own: &mut [u32; crate::OWN_CELLS], i0: u32, j0: u32, i1: u32, j1: u32)
    ensures { own.new ≡ party_cells (with_domain (domain_from i0 j0 i1 j1) (party_of own.old [])) }
{
    own[DOMAIN] = 1;
    own[DOMAIN_I0] = i0;
    own[DOMAIN_J0] = j0;
    own[DOMAIN_I1] = i1;
    own[DOMAIN_J1] = j1;
}

pub fn set_instructions(own: &mut [u32; crate::OWN_CELLS], base: u32, format: u32)
    ensures { own.new ≡ party_cells (with_instructions (buffer base format 1) (party_of own.old [])) }
{
    own[INSTRUCTIONS] = 1;
    own[INSTRUCTIONS_BASE] = base;
    own[INSTRUCTIONS_FORMAT] = format;
    own[INSTRUCTIONS_HEIGHT] = 1;
}

// An output's row step and span.
pub fn set_window(own: &mut [u32; crate::OWN_CELLS], number: u32, step: u32, span: u32)
    requires { number < 4 }
    ensures { own.new ≡ party_cells (with_readiness (with_window number (window_from step span) (party_of own.old []).readiness) (party_of own.old [])) }
{
    let at = STEP_0 + 2 * number as usize;
    own[at] = step;
    own[at + 1] = span;
}

// What the outputs ask of a domain and give for a pair.
// Kept (design pass 2, no plainer; also `set_domain`): five cells by name each; one function for both would take a place and five unnamed numbers.
pub fn set_gauge(
    own: &mut [u32; crate::OWN_CELLS],
    some: u32,
    columns: u32,
    rows: u32,
    apart: u32,
    credit: u32,
)
    ensures { own.new ≡ party_cells (with_readiness (with_gauge (gauge_from some columns rows apart credit) (party_of own.old []).readiness) (party_of own.old [])) }
{
    own[SOME] = some;
    own[COLUMNS] = columns;
    own[ROWS] = rows;
    own[APART] = apart;
    own[CREDIT] = credit;
}

// The number that the settings alone give a start.
pub fn set_readiness(own: &mut [u32; crate::OWN_CELLS], number: u32)
    ensures { own.new ≡ party_cells (with_readiness (with_number number (party_of own.old []).readiness) (party_of own.old [])) }
{
    own[READINESS] = number;
}
