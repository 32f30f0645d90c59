// Queries of a session's settings and tallies. They read the cells and change nothing, stopped or not.
#![tactic(auto)]

ghost use Rattle.std.specs.Prelude.{◌≡◌, [], ◌<◌, eqb, get_or};
ghost use Rattle.state.specs.State.{unset};
ghost use Rattle.state.specs.Cells.{buffer_at, party_of, shared_of};
ghost use Rattle.queries.specs.Queries.{bounds_of, setting_of};

use state::{own, settings};

// A format as it was set: base, format word and height; all 0 where it is not set.
// Kept (design pass 1, what may not change; this, the bounds and the two flags below): clauses tell a flag and what the cells hold, set or not.
#[derive(Drop)]
pub struct Setting {
    pub present: bool,
    pub base: u32,
    pub format: u32,
    pub height: u32,
}

// The domain, both ends included.
#[derive(Drop)]
pub struct Bounds {
    pub present: bool,
    pub i0: u32,
    pub j0: u32,
    pub i1: u32,
    pub j1: u32,
}

pub fn is_stopped(own: &[u32; state::OWN_CELLS]) -> bool
    ensures { result ≡ eqb (party_of own.now []).stopped 1 }
{
    own[own::STOPPED] == 1
}

// The line of the open command in the command table, 21 where none is open, and how many parameters were taken.
pub fn open_line(own: &[u32; state::OWN_CELLS]) -> u32
    ensures { result ≡ (party_of own.now []).opened.line }
{
    own[own::LINE]
}

pub fn open_count(own: &[u32; state::OWN_CELLS]) -> u32
    ensures { result ≡ (party_of own.now []).opened.count }
{
    own[own::COUNT]
}

// Which of 0, 7, 8 and 9 the settings alone give a start, as it is stored.
pub fn readiness(own: &[u32; state::OWN_CELLS]) -> u32
    ensures { result ≡ (party_of own.now []).readiness.number }
{
    own[own::READINESS]
}

// The edition of the lease rule, as it was fixed when the session began.
pub fn edition(own: &[u32; state::OWN_CELLS]) -> u32
    ensures { result ≡ (party_of own.now []).birth.edition }
{
    own[own::EDITION]
}

pub fn domain(own: &[u32; state::OWN_CELLS]) -> Bounds
    ensures { result ≡ bounds_of (party_of own.now []).domain }
{
    let present = own[own::DOMAIN] == 1;
    Bounds {
        present,
        i0: own[own::DOMAIN_I0],
        j0: own[own::DOMAIN_J0],
        i1: own[own::DOMAIN_I1],
        j1: own[own::DOMAIN_J1],
    }
}

pub fn instructions(own: &[u32; state::OWN_CELLS]) -> Setting
    ensures { result ≡ setting_of (party_of own.now []).instructions }
{
    let present = own[own::INSTRUCTIONS] == 1;
    Setting {
        present,
        base: own[own::INSTRUCTIONS_BASE],
        format: own[own::INSTRUCTIONS_FORMAT],
        height: own[own::INSTRUCTIONS_HEIGHT],
    }
}

// Starts that passed, and the elements that they claimed.
pub fn runs(tallies: &[u64; state::TALLIES]) -> u64
    ensures { result ≡ (party_of [] tallies.now).tally.runs }
{
    tallies[0]
}

pub fn claims(tallies: &[u64; state::TALLIES]) -> u64
    ensures { result ≡ (party_of [] tallies.now).tally.claims }
{
    tallies[1]
}

// The output mask: bit 4n + c for channel c of output n.
pub fn mask(shared: &[u32; state::SHARED_CELLS]) -> u32
    ensures { result ≡ (shared_of shared.now).mask }
{
    shared[settings::MASK]
}

// Whether the conditional mask and the test are set, and their values.
pub fn has_conditional_mask(shared: &[u32; state::SHARED_CELLS]) -> bool
    ensures { result ≡ eqb (shared_of shared.now).conditional_mask_set 1 }
{
    shared[settings::CONDITIONAL_MASK_SET] == 1
}

pub fn conditional_mask(shared: &[u32; state::SHARED_CELLS]) -> u32
    ensures { result ≡ (shared_of shared.now).conditional_mask }
{
    shared[settings::CONDITIONAL_MASK]
}

pub fn has_test(shared: &[u32; state::SHARED_CELLS]) -> bool
    ensures { result ≡ eqb (shared_of shared.now).test_set 1 }
{
    shared[settings::TEST_SET] == 1
}

pub fn test(shared: &[u32; state::SHARED_CELLS]) -> u32
    ensures { result ≡ (shared_of shared.now).test }
{
    shared[settings::TEST]
}

// The buffer whose cells begin at a place.
fn setting_at(shared: &[u32; state::SHARED_CELLS], at: usize) -> Setting
    requires { at < 98 }
    ensures { result ≡ setting_of (buffer_at shared.now at) }
{
    let present = shared[at] == 1;
    Setting {
        present,
        base: shared[at + 1],
        format: shared[at + 2],
        height: shared[at + 3],
    }
}

pub fn floats(shared: &[u32; state::SHARED_CELLS]) -> Setting
    ensures { result ≡ setting_of (shared_of shared.now).floats }
{
    setting_at(shared, settings::FLOATS)
}

pub fn integers(shared: &[u32; state::SHARED_CELLS]) -> Setting
    ensures { result ≡ setting_of (shared_of shared.now).integers }
{
    setting_at(shared, settings::INTEGERS)
}

pub fn booleans(shared: &[u32; state::SHARED_CELLS]) -> Setting
    ensures { result ≡ setting_of (shared_of shared.now).booleans }
{
    setting_at(shared, settings::BOOLEANS)
}

pub fn conditional(shared: &[u32; state::SHARED_CELLS]) -> Setting
    ensures { result ≡ setting_of (shared_of shared.now).conditional }
{
    setting_at(shared, settings::CONDITIONAL)
}

// What isn't set, as what a number past the last output or input tells.
fn not_set() -> Setting
    ensures { result ≡ setting_of unset }
{
    Setting {
        present: false,
        base: 0,
        format: 0,
        height: 0,
    }
}

// Output `number`, 0 to 3.
// Kept (design pass 2, no plainer; also `input`): what both do is in setting_at and not_set; a count and a place are all that they add to it.
pub fn output(shared: &[u32; state::SHARED_CELLS], number: u32) -> Setting
    ensures { result ≡ setting_of (get_or (shared_of shared.now).outputs number unset) }
{
    if number < 4 {
        setting_at(shared, settings::OUTPUTS + 4 * number as usize)
    } else {
        not_set()
    }
}

// Input `number`, 0 to 15.
pub fn input(shared: &[u32; state::SHARED_CELLS], number: u32) -> Setting
    ensures { result ≡ setting_of (get_or (shared_of shared.now).inputs number unset) }
{
    if number < 16 {
        setting_at(shared, settings::INPUTS + 4 * number as usize)
    } else {
        not_set()
    }
}
