// A party's own numbers: the stop, the words taken, the open command, the domain, the instruction format, what the party owns, the
// edition and the tallies.
ghost use Rattle.std.specs.Prelude.{◌≡◌, true, [], ◌<◌};
ghost use Rattle.command.specs.Kinds.{allowed, kind_of};
ghost use Rattle.state.specs.State.{born};
ghost use Rattle.state.specs.Cells.{party_of};
ghost use Rattle.judges.specs.Judged.{birth_by, closed_by, command_by, domain_by, open_by, open_from, owned_by, party_by, passed_at, running_by, tally_by};

use crate::settings;
use crate::tests::is_lawful;
use command::{kinds, table};
use state::{edition, own};

// "17: the session has taken 1,000,000,000 words".
const MOST_WORDS: u32 = 1000000000;

// A domain's columns and rows are below this.
const EXTENT: u32 = 4096;

// The most elements that one start claims.
const MOST_CLAIM: u64 = 268435456;

// Parameter `k` was taken and its kind allows it, or it hasn't come and is 0. It asks the kind and then the word, not
// `kinds::place_allowed`, which does both at every word: with a second caller that would be a call there.
fn passed(line: u32, count: u32, k: u32, word: u32) -> bool
    requires { (line < 21) × (k < 4) }
    ensures { result ≡ passed_at line count k word }
{
    if k < count {
        let kind = kinds::kind_at(line, k);
        kinds::is_allowed(kind, word)
    } else {
        word == 0
    }
}

// Whether an open command of a line has fewer parameters than the line, each of them passed.
fn is_open(line: u32, count: u32, p0: u32, p1: u32, p2: u32, p3: u32) -> bool
    requires { line < 21 }
    ensures { result ≡ open_by (open_from line count p0 p1 p2 p3) }
{
    let fewer = count < table::parameters(line);
    let first = passed(line, count, 0, p0);
    let second = passed(line, count, 1, p1);
    let third = passed(line, count, 2, p2);
    fewer & (first & (second & (third & (p3 == 0))))
}

// Whether the party may send the header of a line, and its number where that was taken.
fn is_owned(mine: u32, line: u32, count: u32, p0: u32) -> bool
    requires { (line < 21) × (0 < count → allowed (kind_of line 0) p0 ≡ true) }
    ensures { result ≡ owned_by mine line count p0 }
{
    if 0 < count {
        owners::may_open(mine, line) & owners::may_name(mine, line, 0, p0)
    } else {
        owners::may_open(mine, line)
    }
}

// Whether all of no open command is 0.
fn is_closed(line: u32, count: u32, p0: u32, p1: u32, p2: u32, p3: u32) -> bool
    ensures { result ≡ closed_by (open_from line count p0 p1 p2 p3) }
{
    (count == 0) & ((p0 == 0) & ((p1 == 0) & ((p2 == 0) & (p3 == 0))))
}

// Whether the open command of a line is one that the party can have sent, its words among those taken.
fn is_running(own: &[u32; state::OWN_CELLS]) -> bool
    requires { (party_of own.now []).opened.line < 21 }
    ensures { result ≡ running_by (party_of own.now []).stopped (party_of own.now []).taken (party_of own.now []).birth.mine (party_of own.now []).opened }
{
    let line = own[own::LINE];
    let count = own[own::COUNT];
    let first = own[own::PARAMETER_0];
    let open = is_open(
        line,
        count,
        first,
        own[own::PARAMETER_1],
        own[own::PARAMETER_2],
        own[own::PARAMETER_3],
    );
    if open {
        (own[own::STOPPED] == 0)
            & ((count < own[own::TAKEN]) & is_owned(own[own::MINE], line, count, first))
    } else {
        false
    }
}

// Whether no command is open, or one of a line that there is, in a party that isn't stopped.
fn is_command(own: &[u32; state::OWN_CELLS]) -> bool
    ensures { result ≡ command_by (party_of own.now []).stopped (party_of own.now []).taken (party_of own.now []).birth.mine (party_of own.now []).opened }
{
    if own[own::LINE] == own::NO_LINE {
        return is_closed(
            own::NO_LINE,
            own[own::COUNT],
            own[own::PARAMETER_0],
            own[own::PARAMETER_1],
            own[own::PARAMETER_2],
            own[own::PARAMETER_3],
        );
    }
    if own::NO_LINE < own[own::LINE] {
        return false;
    }
    is_running(own)
}

// Whether the domain's ends are in order and in range, and 0 where it isn't set.
fn is_domain(flag: u32, i0: u32, j0: u32, i1: u32, j1: u32) -> bool
    ensures { result ≡ domain_by (record { is_set = flag; i0 = i0; j0 = j0; i1 = i1; j1 = j1 }) }
{
    let ends = (i0 <= i1) & ((i1 < EXTENT) & ((j0 <= j1) & (j1 < EXTENT)));
    let zeros = (i0 == 0) & ((j0 == 0) & ((i1 == 0) & (j1 == 0)));
    ends & is_lawful(flag, zeros, true)
}

// Whether the words taken can have claimed so much.
fn is_tally(taken: u32, runs: u64, claims: u64) -> bool
    ensures { result ≡ tally_by (record { runs = runs; claims = claims }) taken }
{
    (runs <= taken as u64) & (claims <= taken as u64 * MOST_CLAIM)
}

// Whether a party's birth is one: numbers that there are, and an edition.
fn is_birth(mine: u32, edition: u32) -> bool
    ensures { result ≡ birth_by (born mine edition) }
{
    (mine <= owners::EVERYTHING) & edition::is_known(edition)
}

// Whether a party's own numbers but those of readiness are such as the entries leave.
pub fn is_kept(own: &[u32; state::OWN_CELLS], tallies: &[u64; state::TALLIES]) -> bool
    ensures { result ≡ party_by (party_of own.now tallies.now) }
{
    let taken = own[own::TAKEN];
    let flags = (own[own::STOPPED] <= 1) & (taken <= MOST_WORDS);
    let command = is_command(own);
    let domain = is_domain(
        own[own::DOMAIN],
        own[own::DOMAIN_I0],
        own[own::DOMAIN_J0],
        own[own::DOMAIN_I1],
        own[own::DOMAIN_J1],
    );
    let instructions = settings::is_row(
        own[own::INSTRUCTIONS],
        own[own::INSTRUCTIONS_BASE],
        own[own::INSTRUCTIONS_FORMAT],
        own[own::INSTRUCTIONS_HEIGHT],
    );
    let birth = is_birth(own[own::MINE], own[own::EDITION]);
    let tally = is_tally(taken, tallies[0], tallies[1]);
    flags & (command & (domain & (instructions & (birth & tally))))
}
