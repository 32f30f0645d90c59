// What a session holds over numbers, flags as 1 or 0: where it stands, its runs and claims, and its settings. Each answer is a
// status with its numbers in a room that the caller lends; only a format is ever refused, with 2 or 4, and touches no room then.
#![tactic(auto)]

ghost use Rattle.std.specs.Prelude.{◌≡◌, []};
ghost use Rattle.state.specs.Cells.{party_of, shared_of};
ghost use Rattle.refusal.specs.Crossing.{Crosses, Shows};
ghost use Rattle.setting_rooms.specs.Rooms.{domain_numbers, format_at, format_of, mask_numbers, open_header, standing_numbers, tally_numbers, told_found};

use command::table;
use queries::Setting;
use refusal::Refusal;
use state::own;

// Lengths of rooms: words taken, stopped or not, the open command's header and parameters so far, what a start would get of the
// settings, the edition; runs and claims; set or not and four bounds; the output mask, then the conditional mask and the test behind a flag each;
// set or not, base, format word and height.
pub const STANDING_NUMBERS: usize = 6;

pub const TALLY_NUMBERS: usize = 2;

pub const DOMAIN_NUMBERS: usize = 5;

pub const MASK_NUMBERS: usize = 5;

pub const FORMAT_NUMBERS: usize = 4;

// Inputs and outputs that have a format.
const INPUTS: u32 = 16;

const OUTPUTS: u32 = 4;

// The header of the open command's line; 0 where none is open.
fn open_header(line: u32) -> u32
    ensures { result ≡ open_header line }
{
    if line < own::NO_LINE {
        table::header(line)
    } else {
        0
    }
}

// Words taken, stopped or not, the open command's header and how many of its parameters were taken, which of 0, 7, 8 and 9 the
// settings alone give a start, and the edition.
pub fn standing(own: &[u32; state::OWN_CELLS], status: &mut [u32; STANDING_NUMBERS]) -> u32
    ensures { Shows (standing_numbers (party_of own.now [])) result status.new }
{
    let stopped = u32::from(queries::is_stopped(own));
    let header = open_header(queries::open_line(own));
    *status = [
        own[own::TAKEN],
        stopped,
        header,
        queries::open_count(own),
        queries::readiness(own),
        queries::edition(own),
    ];
    0
}

// Runs and claimed elements.
pub fn tallies(tallies: &[u64; state::TALLIES], counts: &mut [u64; TALLY_NUMBERS]) -> u32
    ensures { Shows (tally_numbers (party_of [] tallies.now).tally) result counts.new }
{
    *counts = [queries::runs(tallies), queries::claims(tallies)];
    0
}

// Whether the domain is set, and its bounds.
pub fn domain(own: &[u32; state::OWN_CELLS], domain: &mut [u32; DOMAIN_NUMBERS]) -> u32
    ensures { Shows (domain_numbers (party_of own.now [])) result domain.new }
{
    let bounds = queries::domain(own);
    let set = u32::from(bounds.present);
    *domain = [set, bounds.i0, bounds.j0, bounds.i1, bounds.j1];
    0
}

// The output mask, whether the conditional mask is set and the mask, whether the test is set and the test.
pub fn masks(shared: &[u32; state::SHARED_CELLS], masks: &mut [u32; MASK_NUMBERS]) -> u32
    ensures { Shows (mask_numbers (shared_of shared.now)) result masks.new }
{
    let conditional = u32::from(queries::has_conditional_mask(shared));
    let test = u32::from(queries::has_test(shared));
    *masks = [
        queries::mask(shared),
        conditional,
        queries::conditional_mask(shared),
        test,
        queries::test(shared),
    ];
    0
}

// The format that a line of the command table sets, or the refusal.
fn at_line(
    own: &[u32; state::OWN_CELLS],
    shared: &[u32; state::SHARED_CELLS],
    line: u32,
    number: u32,
) -> Result<Setting, Refusal>
    ensures { told_found result ≡ format_at (party_of own.now []) (shared_of shared.now) line number }
{
    match line {
        table::SET_INST_FMT => Ok(queries::instructions(own)),
        table::SET_INP_FMT => {
            if number < INPUTS {
                Ok(queries::input(shared, number))
            } else {
                Err(Refusal::NumberTooHigh)
            }
        }
        table::SET_OUT_FMT => {
            if number < OUTPUTS {
                Ok(queries::output(shared, number))
            } else {
                Err(Refusal::NumberTooHigh)
            }
        }
        table::SET_COND_OUT_FMT => Ok(queries::conditional(shared)),
        table::SET_CONSTF_FMT => Ok(queries::floats(shared)),
        table::SET_CONSTI_FMT => Ok(queries::integers(shared)),
        table::SET_CONSTB_FMT => Ok(queries::booleans(shared)),
        _ => Err(Refusal::UnknownHeader),
    }
}

// The format that the command with a header sets, of inputs and outputs the one with the number; 2 or 4.
pub fn format(
    own: &[u32; state::OWN_CELLS],
    shared: &[u32; state::SHARED_CELLS],
    header: u32,
    number: u32,
    format: &mut [u32; FORMAT_NUMBERS],
) -> u32
    ensures { Crosses (format_of (party_of own.now []) (shared_of shared.now) header number) result format.old format.new }
{
    match table::line_of(header) {
        None => u32::from(Refusal::UnknownHeader),
        Some(line) => match at_line(own, shared, line, number) {
            Err(why) => u32::from(why),
            Ok(setting) => {
                let set = u32::from(setting.present);
                *format = [set, setting.base, setting.format, setting.height];
                0
            }
        },
    }
}
