// The two words of a slot, and their fields by name.
ghost use Rattle.std.specs.Prelude.{◌≡◌};
ghost use Rattle.group.specs.Modes.{mode_of};
ghost use Rattle.group.specs.Group.{permits, fits_first, plain_second, fits_second, allowed_loop, branch_op};

// A field is its word divided by the field's lowest bit, and of that what is left of the number of the field's values. First
// word: op, B_ELSE, JUMP_ANY, A_OP, JUMP_FUNC, B_POP_CNT, bits that must be 0, B_OP0, B_OP1, bits that must be 0.
pub const OPS: u32 = 16;

pub const B_ELSE: u32 = 0x10;

pub const JUMP_ANY: u32 = 0x20;

pub const A_OP: u32 = 0x40;

pub const JUMP_FUNC: u32 = 0x100;

pub const JUMP_FUNCS: u32 = 256;

pub const B_POP_CNT: u32 = 0x10000;

pub const B_POP_CNTS: u32 = 32;

const LOW_GAP: u32 = 0x200000;

const LOW_GAPS: u32 = 8;

const B_OP0: u32 = 0x1000000;

const B_OP1: u32 = 0x4000000;

const HIGH_GAP: u32 = 0x10000000;

const HIGH_GAPS: u32 = 16;

// A flag has two values; A_OP, B_OP0 and B_OP1 have four, of which 0 to 2 are codes.
pub const FLAGS: u32 = 2;

pub const CODES: u32 = 4;

const LAST_CODE: u32 = 2;

// The last op, ENDREP. Of ops 1 to 4 the odd ones open a loop.
const LAST_OP: u32 = 4;

// Second word: boolean number, bits that must be 0, jump address, bits that must be 0. Ops that open a loop have an integer number
// amid the first of these bits.
pub const BOOLEANS: u32 = 32;

const SECOND_GAP: u32 = 0x20;

const SECOND_GAPS: u32 = 2048;

const BELOW_INTEGER: u32 = 0x20;

pub const INTEGER: u32 = 0x100;

pub const INTEGERS: u32 = 32;

const ABOVE_INTEGER: u32 = 0x2000;

const INTEGER_GAPS: u32 = 8;

pub const ADDRESS: u32 = 0x10000;

pub const ADDRESSES: u32 = 512;

const TOP_GAP: u32 = 0x2000000;

const TOP_GAPS: u32 = 128;

// Whether the mode permits the first word: partial mode has op 0 and A_OP 0 alone.
pub fn permitted(mode: u32, first: u32) -> bool
    ensures { result ≡ permits (mode_of mode) first }
{
    mode != group::PARTIAL || (first % OPS == 0 && first / A_OP % CODES == 0)
}

// Whether every field of the first word but its op has an allowed value and every other bit is 0, used or not.
pub fn fits_first(first: u32) -> bool
    ensures { result ≡ fits_first first }
{
    (first / A_OP % CODES <= LAST_CODE)
        & (first / LOW_GAP % LOW_GAPS == 0)
        & (first / B_OP0 % CODES <= LAST_CODE)
        & (first / B_OP1 % CODES <= LAST_CODE)
        & (first / HIGH_GAP % HIGH_GAPS == 0)
}

// Whether the second word is one of op 0: without an integer number.
pub fn plain_second(second: u32) -> bool
    ensures { result ≡ plain_second second }
{
    (second / SECOND_GAP % SECOND_GAPS == 0) & (second / TOP_GAP % TOP_GAPS == 0)
}

// Whether the second word is one of ops 1 to 4, of which those that open a loop have an integer number.
fn fits_second(opens: bool, second: u32) -> bool
    ensures { result ≡ fits_second opens second }
{
    (second / BELOW_INTEGER % INTEGER_GAPS == 0)
        & (second / ABOVE_INTEGER % INTEGER_GAPS == 0)
        & (second / TOP_GAP % TOP_GAPS == 0)
        & (opens | (second / INTEGER % INTEGERS == 0))
}

// Whether the words of ops 1 to 4 are allowed.
pub fn allowed_loop(first: u32, second: u32) -> bool
    ensures { result ≡ allowed_loop first second }
{
    (first % OPS <= LAST_OP) & fits_first(first) & fits_second(first % 2 == 1, second)
}

// The branch operation that the decision picks: B_OP1 on a jump, B_OP0 on a stay.
pub fn branch_op(first: u32, jump: bool) -> u32
    ensures { result ≡ branch_op jump first }
{
    if jump {
        first / B_OP1 % CODES
    } else {
        first / B_OP0 % CODES
    }
}
