// How a rectangle's columns are split: elements before the first whole tile, whole tiles, elements after the last.
ghost use Rattle.std.specs.Prelude.{◌≡◌, true, ◌+◌, ◌*◌, ◌≤◌, ◌<◌};
ghost use Rattle.layout.specs.Sizes.{is_size, width_of};
ghost use Rattle.address.specs.Offset.{block_width};
ghost use Rattle.rectangles.specs.Bulk.{PlanOf};

#[derive(Drop)]
pub struct Plan {
    pub lead: u32,
    pub first: u32,
    pub count: u32,
    pub inner: u32,
    pub tail: u32,
}

// A row without whole tiles.
fn plain(columns: u32) -> Plan
    ensures { (result.lead ≡ columns) × (result.first ≡ 0) × (result.count ≡ 0) × (result.inner ≡ 0) × (result.tail ≡ 0) }
{
    Plan {
        lead: columns,
        first: 0,
        count: 0,
        inner: 0,
        tail: 0,
    }
}

// The bytes of a block's row.
pub fn block_bytes(size: u32) -> u32
    requires { is_size size ≡ true }
    ensures { result ≡ block_width size * size }
{
    match size {
        1 => 8,
        2 => 8,
        4 => 16,
        8 => 16,
        _ => 32,
    }
}

fn tile_width(size: u32) -> u32
    requires { is_size size ≡ true }
    ensures { (result ≡ width_of size) × (result ≡ block_width size * 8) × (0 < result) × (result ≤ 64) }
{
    match size {
        1 => 64,
        2 => 32,
        4 => 32,
        8 => 16,
        _ => 16,
    }
}

pub fn split(size: u32, x: u32, columns: u32) -> Plan
    requires { (is_size size ≡ true) × (x + columns ≤ 4096) }
    ensures { PlanOf size x columns result }
{
    let width = tile_width(size);
    let first = (x + (width - 1)) / width;
    let end = (x + columns) / width;
    if first < end {
        let lead = width * first - x;
        let count = end - first;
        let inner = width * count;
        let tail = x + columns - width * end;
        Plan {
            lead,
            first,
            count,
            inner,
            tail,
        }
    } else {
        plain(columns)
    }
}
