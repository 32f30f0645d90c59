// Runs: how many elements of a row, from a column on, lie at consecutive addresses. The row step is given in bytes, as the stride.
ghost use Rattle.std.specs.Prelude.{◌≡◌, ◌-◌, ◌*◌, ◌/◌, ◌%◌, ◌<◌, true, false};
ghost use Rattle.layout.specs.Sizes.{is_size};
ghost use Rattle.address.specs.Run.{run_unit, run_number};

// What is left, from a column on, of a tiled row's group of elements that follow each other.
fn group_rest(size: u32, x: u32) -> u32
    requires { is_size size ≡ true }
    ensures { result ≡ run_unit size - x % run_unit size }
{
    match size {
        1 => 8 - x % 8,
        2 => 4 - x % 4,
        4 => 4 - x % 4,
        8 => 2 - x % 2,
        // 16: two blocks of 2
        _ => 4 - x % 4,
    }
}

// What is left, from a column on, of a linear row. A size is a power of two, so a shift divides by it.
fn row_rest(size: u32, stride: u32, x: u32) -> u32
    requires { (is_size size ≡ true) × (x * size < stride) × (stride / size * size ≡ stride) }
    ensures { result ≡ stride / size - x }
{
    (stride - x * size) >> u32::trailing_zeros(size)
}

// The run from a column of the row on.
pub fn run_from(tiled: bool, size: u32, stride: u32, x: u32) -> u32
    requires { (is_size size ≡ true) × (x * size < stride) × (stride / size * size ≡ stride) }
    ensures { result ≡ run_number tiled size (stride / size) x }
{
    if tiled {
        group_rest(size, x)
    } else {
        row_rest(size, stride, x)
    }
}
