// Parameter words by their kinds. A parameter is judged by its kind alone, whatever command it stands in: 3 for a
// reserved bit or code, 4 for an input or output number that is too high.
ghost use Rattle.std.specs.Prelude.{◌≡◌, ◌<◌};
ghost use Rattle.refusal.specs.Number.{number_of};
ghost use Rattle.command.specs.Kinds.{format_allowed, superfine_allowed, allowed, fault_of, check_of, kind_of, told_checked};

use crate::format::{channels, code, superfine};
use refusal::Refusal;

#[derive(Clone, Copy)]
pub enum Kind {
    // Must be 0.
    Reserved,
    // At most 15, at most 3: the whole word.
    InputNumber,
    OutputNumber,
    // Bits 31:11.
    Base,
    // Bits 12:2, 16, 17 and 26:24, the last of them at most 4; an input's is superfine with one channel only.
    Format,
    InputFormat,
    // Bits 12:0.
    Height,
    // Bits 11:0.
    Coordinate,
    // Bits 15:0.
    MaskBits,
    // Bit 0.
    ConditionalMaskBit,
    // Bits 2:0.
    TestBits,
}

// The kind of parameter `k` of a line, the first being 0. Parameters that a line doesn't have count as reserved.
pub fn kind_at(line: u32, k: u32) -> Kind
    requires { (line < 21) × (k < 4) }
    ensures { result ≡ kind_of line k }
{
    match line * 4 + k {
        0 => Kind::Coordinate,
        1 => Kind::Coordinate,
        2 => Kind::Coordinate,
        3 => Kind::Coordinate,
        12 => Kind::Base,
        13 => Kind::Format,
        16 => Kind::InputNumber,
        17 => Kind::Base,
        18 => Kind::InputFormat,
        19 => Kind::Height,
        20 => Kind::OutputNumber,
        21 => Kind::Base,
        22 => Kind::Format,
        23 => Kind::Height,
        24 => Kind::Base,
        25 => Kind::Format,
        26 => Kind::Height,
        28 => Kind::Base,
        29 => Kind::Format,
        32 => Kind::Base,
        33 => Kind::Format,
        36 => Kind::Base,
        37 => Kind::Format,
        72 => Kind::MaskBits,
        76 => Kind::ConditionalMaskBit,
        80 => Kind::TestBits,
        _ => Kind::Reserved,
    }
}

// Whether a format word has its reserved bits zero and a code that is known.
pub fn format_allowed(word: u32) -> bool
    ensures { result ≡ format_allowed word }
{
    word % 4 == 0
        && word / 8192 % 8 == 0
        && word / 262144 % 64 == 0
        && word / 134217728 == 0
        && code(word) <= 4
}

// Whether an input's format word is superfine with one channel only, or not superfine.
pub fn superfine_allowed(word: u32) -> bool
    ensures { result ≡ superfine_allowed word }
{
    !superfine(word) || channels(code(word)) <= 1
}

fn input_format_allowed(word: u32) -> bool
    ensures { result ≡ allowed Kind.InputFormat word }
{
    format_allowed(word) && superfine_allowed(word)
}

// Whether a word is allowed where a parameter of the kind stands.
pub fn is_allowed(kind: Kind, word: u32) -> bool
    ensures { result ≡ allowed kind word }
{
    match kind {
        Kind::Reserved => word == 0,
        Kind::InputNumber => word <= 15,
        Kind::OutputNumber => word <= 3,
        Kind::Base => word % 2048 == 0,
        Kind::Format => format_allowed(word),
        Kind::InputFormat => input_format_allowed(word),
        Kind::Height => word < 8192,
        Kind::Coordinate => word < 4096,
        Kind::MaskBits => word < 65536,
        Kind::ConditionalMaskBit => word < 2,
        Kind::TestBits => word < 8,
    }
}

// Whether a word is allowed as parameter `k` of a line: the two matches above as one, for what runs at every word.
// Kept (design pass 2, speed): word by word, a word takes 139 instructions by is_allowed(kind_at(line, k), word), 112 by this match.
pub fn place_allowed(line: u32, k: u32, word: u32) -> bool
    requires { (line < 21) × (k < 4) }
    ensures { result ≡ allowed (kind_of line k) word }
{
    match line * 4 + k {
        0 => word < 4096,
        1 => word < 4096,
        2 => word < 4096,
        3 => word < 4096,
        12 => word % 2048 == 0,
        13 => format_allowed(word),
        16 => word <= 15,
        17 => word % 2048 == 0,
        18 => input_format_allowed(word),
        19 => word < 8192,
        20 => word <= 3,
        21 => word % 2048 == 0,
        22 => format_allowed(word),
        23 => word < 8192,
        24 => word % 2048 == 0,
        25 => format_allowed(word),
        26 => word < 8192,
        28 => word % 2048 == 0,
        29 => format_allowed(word),
        32 => word % 2048 == 0,
        33 => format_allowed(word),
        36 => word % 2048 == 0,
        37 => format_allowed(word),
        72 => word < 65536,
        76 => word < 2,
        80 => word < 8,
        _ => word == 0,
    }
}

// The refusal of a word that its kind doesn't allow.
pub fn fault(kind: Kind) -> Refusal
    ensures { number_of result ≡ fault_of kind }
{
    match kind {
        Kind::InputNumber => Refusal::NumberTooHigh,
        Kind::OutputNumber => Refusal::NumberTooHigh,
        _ => Refusal::Malformed,
    }
}

// A parameter word judged by its kind: fine, 3 or 4.
pub fn check(kind: Kind, word: u32) -> Result<(), Refusal>
    ensures { told_checked result ≡ check_of kind word }
{
    if is_allowed(kind, word) {
        Ok(())
    } else {
        Err(fault(kind))
    }
}
