// Document 01's constant tables: the element sizes with their tiles, and the commands' headers with their numbers of
// parameters. A constant array is built anew on the stack at each use, so what runs for each word or element goes by a `match`
// or a shift, in `layout` and `command`, proved equal to the same lists; what runs less often reads the tables here.
#![tactic(auto)]

ghost use Rattle.std.specs.Prelude.{◌≡◌, ◌<◌, get_or};
ghost use Rattle.laws.specs.Choice.{place_of};
ghost use Rattle.tables.specs.Tables.{sizes, widths, heights, headers, counts};

// The number of element sizes, and of commands.
pub const SIZE_LINES: usize = 5;

pub const COMMAND_LINES: usize = 21;

// The element sizes in bytes.
pub const SIZES: [u32; SIZE_LINES] = [1, 2, 4, 8, 16];

// The width and the height of each size's tile in elements.
pub const TILE_WIDTHS: [u32; SIZE_LINES] = [64, 32, 32, 16, 16];

pub const TILE_HEIGHTS: [u32; SIZE_LINES] = [32, 32, 16, 16, 8];

// The commands' headers, in the order of the operations 07 to 1B hex, and how many parameters each announces.
pub const HEADERS: [u32; COMMAND_LINES] = [
    // set_domain, start_program, wait_for_idle, set_inst_fmt
    0xC003_0700,
    0xC000_0800,
    0xC000_0900,
    0xC001_0A00,
    // set_inp_fmt, set_out_fmt, set_cond_out_fmt
    0xC003_0B00,
    0xC003_0C00,
    0xC002_0D00,
    // set_constf_fmt, set_consti_fmt, set_constb_fmt
    0xC001_0E00,
    0xC001_0F00,
    0xC001_1000,
    // invalidate the instruction, float, integer, boolean constant, conditional output and input caches
    0xC000_1100,
    0xC000_1200,
    0xC000_1300,
    0xC000_1400,
    0xC000_1500,
    0xC000_1600,
    // flush the output and conditional output caches
    0xC000_1700,
    0xC000_1800,
    // set_out_mask, set_cond_out_mask, set_cond_test
    0xC000_1900,
    0xC000_1A00,
    0xC000_1B00,
];

pub const COUNTS: [u32; COMMAND_LINES] = [
    4, 1, 1, 2, 4, 4, 3, 2, 2, 2, 1, 1, 1, 1, 1, 1, 1, 1, 1, 1, 1,
];

// The line of a size, counted from 0; 5 for a number that is no size.
pub fn size_line(size: u32) -> usize
    ensures { result ≡ place_of size sizes }
{
    let mut line = 0;
    while line < SIZE_LINES {
        if SIZES[line] == size {
            return line;
        }
        line += 1;
    }
    SIZE_LINES
}

// The width and the height of the tile in a line.
pub fn tile_width_at(line: usize) -> u32
    requires { line < 5 }
    ensures { result ≡ get_or widths line 0 }
{
    TILE_WIDTHS[line]
}

pub fn tile_height_at(line: usize) -> u32
    requires { line < 5 }
    ensures { result ≡ get_or heights line 0 }
{
    TILE_HEIGHTS[line]
}

// The header in a line, and how many parameters it announces.
pub fn header_at(line: usize) -> u32
    requires { line < 21 }
    ensures { result ≡ get_or headers line 0 }
{
    HEADERS[line]
}

pub fn count_at(line: usize) -> u32
    requires { line < 21 }
    ensures { result ≡ get_or counts line 0 }
{
    COUNTS[line]
}
