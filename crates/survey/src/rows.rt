// The bytes of a domain's pairs, row by row. A linear row is one run of numbers that follow each other; a tiled row is groups of four,
// with what is left of a group before and after them.
ghost use Rattle.std.specs.Prelude.{◌≡◌, true, ◌+◌, ◌*◌, ◌/◌, ◌%◌, ◌<◌, ◌≤◌, length};
ghost use Rattle.laws.specs.Below.{sum};
ghost use Rattle.conditions.specs.Spans.{written};
ghost use Rattle.survey.specs.Asked.{PlaceAsked, RowAsked, RowsAsked};
ghost use Rattle.survey.specs.Rows.{place_of, row_byte, domain_byte};

use address::offset;

// The bytes of a number.
const SIZE: u32 = 2;

// The numbers of a tiled row's group.
const GROUP: u32 = 4;

// Where the number of a pair stands in memory.
fn place(base: u32, stride: u32, tiled: bool, x: u32, y: u32, first: u32) -> usize
    requires { PlaceAsked base stride tiled x y first }
    ensures { result ≡ place_of base tiled (stride / 2) first x y }
{
    (base + offset::offset(tiled, SIZE, stride, x, y) - first) as usize
}

// Pairs of a tiled row, one by one.
fn singles(
    low: u16,
    top: u16,
    outside: bool,
    base: u32,
    stride: u32,
    x: u32,
    y: u32,
    count: u32,
    memory: &[u8],
    first: u32,
    room: &mut [u8],
    line: usize,
) -> u16
    requires { RowAsked base stride true x y count first (length memory.now) (length room.old) line }
    ensures count { result ≡ sum count (row_byte low top outside memory.now base true (stride / 2) first x y) }
    ensures bytes { room.new ≡ written line (row_byte low top outside memory.now base true (stride / 2) first x y) count room.old }
{
    let mut passed = 0;
    let mut i = 0;
    while i < count {
        let at = place(base, stride, true, x + i, y, first);
        let bit = conditions::bit_at(low, top, outside, memory, at);
        room[line + i as usize] = bit as u8;
        passed += bit;
        i += 1;
    }
    passed
}

// Whole groups of a tiled row.
fn groups(
    low: u16,
    top: u16,
    outside: bool,
    base: u32,
    stride: u32,
    x: u32,
    y: u32,
    count: u32,
    memory: &[u8],
    first: u32,
    room: &mut [u8],
    line: usize,
) -> u16
    requires { RowAsked base stride true x y (4 * count) first (length memory.now) (length room.old) line × (0 < count → x % 4 ≡ 0) }
    ensures count { result ≡ sum (4 * count) (row_byte low top outside memory.now base true (stride / 2) first x y) }
    ensures bytes { room.new ≡ written line (row_byte low top outside memory.now base true (stride / 2) first x y) (4 * count) room.old }
{
    let mut passed = 0;
    let mut i = 0;
    while i < count {
        let done = GROUP * i;
        let at = place(base, stride, true, x + done, y, first);
        passed += conditions::four(low, top, outside, memory, at, room, line + done as usize);
        i += 1;
    }
    passed
}

fn smaller(a: u32, b: u32) -> u32
    ensures { (result ≤ a) × (result ≤ b) × (result < b → result ≡ a) }
{
    if a < b { a } else { b }
}

// A tiled row: what is left of a group, whole groups, the beginning of a group.
fn tiled_row(
    low: u16,
    top: u16,
    outside: bool,
    base: u32,
    stride: u32,
    x: u32,
    y: u32,
    count: u32,
    memory: &[u8],
    first: u32,
    room: &mut [u8],
    line: usize,
) -> u16
    requires { RowAsked base stride true x y count first (length memory.now) (length room.old) line }
    ensures count { result ≡ sum count (row_byte low top outside memory.now base true (stride / 2) first x y) }
    ensures bytes { room.new ≡ written line (row_byte low top outside memory.now base true (stride / 2) first x y) count room.old }
{
    let lead = smaller(GROUP - 1 - (x + (GROUP - 1)) % GROUP, count);
    let whole = (count - lead) / GROUP;
    let past = lead + GROUP * whole;
    let before = singles(
        low, top, outside, base, stride, x, y, lead, memory, first, room, line,
    );
    let middle = groups(
        low,
        top,
        outside,
        base,
        stride,
        x + lead,
        y,
        whole,
        memory,
        first,
        room,
        line + lead as usize,
    );
    let after = singles(
        low,
        top,
        outside,
        base,
        stride,
        x + past,
        y,
        count - past,
        memory,
        first,
        room,
        line + past as usize,
    );
    before + middle + after
}

// A row of either kind.
fn row(
    low: u16,
    top: u16,
    outside: bool,
    base: u32,
    stride: u32,
    tiled: bool,
    x: u32,
    y: u32,
    count: u32,
    memory: &[u8],
    first: u32,
    room: &mut [u8],
    line: usize,
) -> u16
    requires { RowAsked base stride tiled x y count first (length memory.now) (length room.old) line × (0 < count) }
    ensures count { result ≡ sum count (row_byte low top outside memory.now base tiled (stride / 2) first x y) }
    ensures bytes { room.new ≡ written line (row_byte low top outside memory.now base tiled (stride / 2) first x y) count room.old }
{
    if tiled {
        tiled_row(
            low, top, outside, base, stride, x, y, count, memory, first, room, line,
        )
    } else {
        let at = place(base, stride, false, x, y, first);
        conditions::stretch(low, top, outside, memory, at, room, line, count as usize)
    }
}

fn wide(count: u16) -> u32
    ensures { result ≡ count }
{
    count as u32
}

// The bytes of `columns` by `rows` pairs from (x, y) on into the room, and how many pass.
pub fn rows(
    low: u16,
    top: u16,
    outside: bool,
    base: u32,
    stride: u32,
    tiled: bool,
    x: u32,
    y: u32,
    columns: u32,
    rows: u32,
    memory: &[u8],
    first: u32,
    room: &mut [u8],
) -> u32
    requires { RowsAsked base stride tiled x y columns rows first (length memory.now) (length room.old) × (0 < columns) }
    ensures count { result ≡ sum (rows * columns) (domain_byte low top outside memory.now base tiled (stride / 2) first x y columns) }
    ensures bytes { room.new ≡ written 0 (domain_byte low top outside memory.now base tiled (stride / 2) first x y columns) (rows * columns) room.old }
{
    let mut passed = 0;
    let mut line = 0;
    let mut j = 0;
    while j < rows {
        passed += wide(row(
            low,
            top,
            outside,
            base,
            stride,
            tiled,
            x,
            y + j,
            columns,
            memory,
            first,
            room,
            line,
        ));
        line += columns as usize;
        j += 1;
    }
    passed
}
