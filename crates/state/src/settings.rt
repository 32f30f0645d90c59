// The places of the shared settings, and how a buffer is stored there.
ghost use Rattle.std.specs.Prelude.{◌≡◌, ◌<◌};
ghost use Rattle.state.specs.Effects.{buffer};
ghost use Rattle.state.specs.Cells.{set_buffer};

// Places of the cells. A buffer takes four: whether it is set, base, format and height.
pub const MASK: usize = 0;

pub const CONDITIONAL_MASK_SET: usize = 1;

pub const CONDITIONAL_MASK: usize = 2;

pub const TEST_SET: usize = 3;

pub const TEST: usize = 4;

pub const FLOATS: usize = 5;

pub const INTEGERS: usize = 9;

pub const BOOLEANS: usize = 13;

pub const CONDITIONAL: usize = 17;

pub const OUTPUT_0: usize = 21;

pub const OUTPUT_1: usize = 25;

pub const OUTPUT_2: usize = 29;

pub const OUTPUT_3: usize = 33;
// Outputs and inputs by number, four cells each.
pub const OUTPUTS: usize = 21;

pub const INPUTS: usize = 37;

// Stores a buffer from a place on.
pub fn put(shared: &mut [u32; crate::SHARED_CELLS], at: usize, base: u32, format: u32, height: u32)
    requires { at < 98 }
    ensures { shared.new ≡ set_buffer shared.old at (buffer base format height) }
{
    shared[at] = 1;
    shared[at + 1] = base;
    shared[at + 2] = format;
    shared[at + 3] = height;
}
