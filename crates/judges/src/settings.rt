// The shared settings: what isn't set is all zeros, and what is set passed the rules of the command that set it.
ghost use Rattle.std.specs.Prelude.{◌≡◌, ◌+◌, ◌*◌, ◌<◌, ◌≤◌};
ghost use Rattle.laws.specs.Below.{every};
ghost use Rattle.state.specs.Cells.{buffer_at, shared_of};
ghost use Rattle.state.specs.Effects.{buffer};
ghost use Rattle.state.specs.Lawful.{lawful_buffer, lawful_row, lawful_word, window};
ghost use Rattle.judges.specs.Judged.{common_by, masks_by, settings_by};

use crate::tests::is_lawful;
use command::kinds;
use command::kinds::Kind;
use rules::last;
use state::settings;

// The output mask is below this.
const MASKS: u32 = 65536;

// The outputs and the inputs that there are.
const OUTPUTS: usize = 4;

const INPUTS: usize = 16;

// Whether a buffer's words are allowed, its format word by a kind, and its window is accepted.
fn is_window(kind: Kind, base: u32, format: u32, height: u32) -> bool
    ensures { result ≡ window kind (buffer base format height) }
{
    let first = kinds::is_allowed(Kind::Base, base);
    let second = kinds::is_allowed(kind, format);
    let third = kinds::is_allowed(Kind::Height, height);
    let accepted = last::is_window(base, format, height);
    first & (second & (third & accepted))
}

// Whether a buffer isn't set and is all zeros, or is set and its window is accepted.
fn is_buffer(kind: Kind, flag: u32, base: u32, format: u32, height: u32) -> bool
    ensures { result ≡ lawful_buffer kind (record { is_set = flag; base = base; format = format; height = height }) }
{
    let zeros = (base == 0) & ((format == 0) & (height == 0));
    is_lawful(flag, zeros, is_window(kind, base, format, height))
}

// The same of a buffer of height 1: instructions and constants.
pub fn is_row(flag: u32, base: u32, format: u32, height: u32) -> bool
    ensures { result ≡ lawful_row (record { is_set = flag; base = base; format = format; height = height }) }
{
    is_buffer(Kind::Format, flag, base, format, height) & (height <= 1)
}

fn is_row_at(shared: &[u32; state::SHARED_CELLS], at: usize) -> bool
    requires { at < 98 }
    ensures { result ≡ lawful_row (buffer_at shared.now at) }
{
    is_row(shared[at], shared[at + 1], shared[at + 2], shared[at + 3])
}

fn is_buffer_at(kind: Kind, shared: &[u32; state::SHARED_CELLS], at: usize) -> bool
    requires { at < 98 }
    ensures { result ≡ lawful_buffer kind (buffer_at shared.now at) }
{
    is_buffer(
        kind,
        shared[at],
        shared[at + 1],
        shared[at + 2],
        shared[at + 3],
    )
}

// Whether so many buffers from a place on are such, their format words by a kind.
fn are_buffers(kind: Kind, shared: &[u32; state::SHARED_CELLS], from: usize, number: usize) -> bool
    requires { from + 4 * number ≤ 101 }
    ensures { result ≡ every number (λ n. lawful_buffer kind (buffer_at shared.now (from + 4 * n))) }
{
    let mut good = true;
    for k in 0..number {
        good = good & is_buffer_at(kind, shared, from + 4 * k);
    }
    good
}

// Whether a word that has a flag isn't set and is 0, or is set and its kind allows it.
fn is_word(kind: Kind, flag: u32, word: u32) -> bool
    ensures { result ≡ lawful_word kind flag word }
{
    is_lawful(flag, word == 0, kinds::is_allowed(kind, word))
}

// Whether the masks and the test are such.
fn are_masks(shared: &[u32; state::SHARED_CELLS]) -> bool
    ensures { result ≡ masks_by (shared_of shared.now) }
{
    let conditional = is_word(
        Kind::ConditionalMaskBit,
        shared[settings::CONDITIONAL_MASK_SET],
        shared[settings::CONDITIONAL_MASK],
    );
    let test = is_word(
        Kind::TestBits,
        shared[settings::TEST_SET],
        shared[settings::TEST],
    );
    (shared[settings::MASK] < MASKS) & (conditional & test)
}

// Whether the constants' formats and the conditional output are such.
fn are_common(shared: &[u32; state::SHARED_CELLS]) -> bool
    ensures { result ≡ common_by (shared_of shared.now) }
{
    let floats = is_row_at(shared, settings::FLOATS);
    let integers = is_row_at(shared, settings::INTEGERS);
    let booleans = is_row_at(shared, settings::BOOLEANS);
    let conditional = is_buffer_at(Kind::Format, shared, settings::CONDITIONAL);
    floats & (integers & (booleans & conditional))
}

// Whether the settings are such as a stream can have set.
pub fn are_kept(shared: &[u32; state::SHARED_CELLS]) -> bool
    ensures { result ≡ settings_by (shared_of shared.now) }
{
    let masks = are_masks(shared);
    let common = are_common(shared);
    let outputs = are_buffers(Kind::Format, shared, settings::OUTPUTS, OUTPUTS);
    let inputs = are_buffers(Kind::InputFormat, shared, settings::INPUTS, INPUTS);
    masks & (common & (outputs & inputs))
}
