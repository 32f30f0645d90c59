// Whether lent memory holds the numbers of a domain's pairs: at once where it covers the window, else row by row and run by run.
ghost use Rattle.std.specs.Prelude.{◌≡◌, ◌+◌, ◌*◌, ◌/◌, ◌<◌, ◌≤◌};
ghost use Rattle.laws.specs.Below.{every};
ghost use Rattle.survey.specs.Asked.{RowHeldAsked, RowsHeldAsked, HeldAsked};
ghost use Rattle.survey.specs.Rows.{row_held, domain_held};

use address::{offset, run};

// The bytes of a number.
const SIZE: u32 = 2;

// The most bytes that lent memory has, and how many bytes have an address, 2^32.
const MOST_BYTES: usize = 65536;

const ADDRESSED: u64 = 0x1_0000_0000;

fn smaller(a: u32, b: u32) -> u32
    ensures { (result ≤ a) × (result ≤ b) × (0 < a → 0 < b → 0 < result) }
{
    if a < b { a } else { b }
}

// Whether memory of `length` bytes holds `count` numbers of a row, run by run: the first and the last of each.
fn row_held(
    base: u32,
    stride: u32,
    tiled: bool,
    x: u32,
    y: u32,
    count: u32,
    first: u32,
    length: usize,
) -> bool
    requires { RowHeldAsked base stride tiled x y count first «length» }
    ensures { result ≡ every count (row_held base tiled (stride / 2) first «length» x y) }
{
    let end = first as u64 + length as u64;
    let mut i = 0;
    while i < count {
        let at = base + offset::offset(tiled, SIZE, stride, x + i, y);
        if at < first {
            return false;
        }
        let many = smaller(run::run_from(tiled, SIZE, stride, x + i), count - i);
        if end < at as u64 + (SIZE * many) as u64 {
            return false;
        }
        i += many;
    }
    true
}

// The same of `rows` rows.
fn rows_held(
    base: u32,
    stride: u32,
    tiled: bool,
    x: u32,
    y: u32,
    columns: u32,
    rows: u32,
    first: u32,
    length: usize,
) -> bool
    requires { RowsHeldAsked base stride tiled x y columns rows first «length» × (0 < columns) }
    ensures { result ≡ every (rows * columns) (domain_held base tiled (stride / 2) first «length» x y columns) }
{
    let mut j = 0;
    while j < rows {
        if !row_held(base, stride, tiled, x, y + j, columns, first, length) {
            return false;
        }
        j += 1;
    }
    true
}

// Whether memory that stands at `first` holds the numbers of `columns` by `rows` pairs from (x, y) on.
pub fn all_held(
    base: u32,
    stride: u32,
    tiled: bool,
    x: u32,
    y: u32,
    columns: u32,
    rows: u32,
    span: u32,
    first: u32,
    length: usize,
) -> bool
    requires { HeldAsked base stride tiled x y columns rows span × (0 < columns) × (0 < rows) }
    ensures { result ≡ every (rows * columns) (domain_held base tiled (stride / 2) first «length» x y columns) }
{
    if MOST_BYTES < length {
        return false;
    }
    let end = first as u64 + length as u64;
    if ADDRESSED < end {
        return false;
    }
    if first <= base {
        if base as u64 + span as u64 <= end {
            return true;
        }
    }
    rows_held(base, stride, tiled, x, y, columns, rows, first, length)
}
