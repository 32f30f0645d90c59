// Document 02, request 9: what a party of a session owns, in one word of 21 bits: bit n for input n, bit 16 + n for output n with its
// four mask bits, and bit 20 for what belongs to party 0, the constants and the conditional unit.
#![tactic(auto)]

ghost use Rattle.std.specs.Prelude.{◌≡◌, true, false, ℕ, ◌%◌, ◌<◌, leb};
ghost use Rattle.laws.specs.Choice.{◌and◌, pick};
ghost use Rattle.laws.specs.Masks.{on};
ghost use Rattle.refusal.specs.Number.{number_of};
ghost use Rattle.command.specs.Kinds.{allowed, kind_of};
ghost use Rattle.owners.specs.Owners.{fault_at, mask_by, may_name, may_open};

use refusal::Refusal;

// All sixteen inputs, all four outputs and what belongs to party 0.
pub const EVERYTHING: u32 = 2097151;

// The bit of output 0, and that of what belongs to party 0.
pub const FIRST_OUTPUT: u32 = 16;

pub const COMMON: u32 = 20;

// The lines of the table that set what belongs to party 0, a bit each: the conditional output's format, mask and test, and the formats
// of the three kinds of constants.
const COMMON_LINES: u32 = 0x1803C0;

// Whether a bit is set.
pub fn is_on(bits: u32, place: u32) -> bool
    requires { place < 32 }
    ensures { result ≡ on place bits }
{
    (bits >> place) % 2 == 1
}

// Whether the party may send the header of a line.
pub fn may_open(mine: u32, line: u32) -> bool
    requires { line < 21 }
    ensures { result ≡ may_open mine line }
{
    is_on(mine, COMMON) || !is_on(COMMON_LINES, line)
}

// Whether the party may send a word as parameter `k` of a line: an input's or an output's number is one that it owns.
pub fn may_name(mine: u32, line: u32, k: u32, word: u32) -> bool
    requires { ((line < 21) × (k < 4)) × (allowed (kind_of line k) word ≡ true) }
    ensures { result ≡ may_name mine (kind_of line k) word }
{
    match line * 4 + k {
        16 => is_on(mine, word),
        20 => is_on(mine, FIRST_OUTPUT + word),
        _ => true,
    }
}

// The refusal of an input's or output's number that isn't taken, by the highest that there is.
fn number_fault(word: u32, most: u32) -> Refusal
    ensures { number_of result ≡ pick (leb word most) 20 4 }
{
    if word <= most {
        Refusal::NotOwned
    } else {
        Refusal::NumberTooHigh
    }
}

// The refusal of a word that isn't taken as parameter `k` of a line: 3 or 4 by its kind, and 20 where that allows it.
pub fn fault_at(line: u32, k: u32, word: u32) -> Refusal
    requires { (line < 21) × (k < 4) }
    ensures { (mine : ℕ) → (allowed (kind_of line k) word and may_name mine (kind_of line k) word) ≡ false → number_of result ≡ fault_at (kind_of line k) word }
{
    match line * 4 + k {
        16 => number_fault(word, 15),
        20 => number_fault(word, 3),
        _ => Refusal::Malformed,
    }
}

// One output's four bits of a new mask where the output is the party's, else those of the old one.
fn chosen(owned: bool, new: u32, old: u32) -> u32
    ensures value { result ≡ pick owned (new % 16) (old % 16) }
    ensures most { result < 16 }
{
    if owned { new % 16 } else { old % 16 }
}

// A new mask's bits for the party's own outputs, an old one's for the others.
pub fn blended(mine: u32, new: u32, old: u32) -> u32
    ensures { result ≡ mask_by mine new old }
{
    let first = chosen(is_on(mine, 16), new, old);
    let second = chosen(is_on(mine, 17), new / 16, old / 16);
    let third = chosen(is_on(mine, 18), new / 256, old / 256);
    let fourth = chosen(is_on(mine, 19), new / 4096, old / 4096);
    first + 16 * second + 256 * third + 4096 * fourth
}
