// Elements in lent memory, whose first byte stands at the address `first`.
ghost use Rattle.address.specs.Address.{layout_of};
ghost use Rattle.memory.specs.Elements.{read_of};
ghost use Rattle.superfine.specs.Superfine.{superfine_read_of};
ghost use Rattle.refusal.specs.Crossing.{Crosses};
ghost use Rattle.element_rooms.specs.Rooms.{in_sixteen, SuperfineCrosses, WriteCrosses};

// The bytes of the element at (x, y), then zeros; 3, 6, 10 or 11.
#[unsafe(no_mangle)]
pub extern "C" fn egretfold_element_read(
    base: u32,
    pitch: u32,
    height: u32,
    size: u32,
    tiled: bool,
    x: u32,
    y: u32,
    memory: &[u8],
    first: u32,
    bytes: &mut [u8; element_rooms::BYTES],
) -> u32
    ensures { Crosses (in_sixteen (read_of (layout_of base pitch height size tiled) x y first memory.now)) result bytes.old bytes.new }
{
    element_rooms::read(base, pitch, height, size, tiled, x, y, memory, first, bytes)
}

// Stores the element at (x, y) and touches no other byte of memory; 3, 6, 10 or 11.
#[unsafe(no_mangle)]
pub extern "C" fn egretfold_element_write(
    base: u32,
    pitch: u32,
    height: u32,
    size: u32,
    tiled: bool,
    x: u32,
    y: u32,
    memory: &mut [u8],
    first: u32,
    given: &[u8],
) -> u32
    ensures { WriteCrosses (layout_of base pitch height size tiled) x y first given.now result memory.old memory.new }
{
    element_rooms::write(base, pitch, height, size, tiled, x, y, memory, first, given)
}

// A superfine read: the bytes of the four elements, then zeros, and how many bytes they have; 3, 6, 10 or 11.
#[unsafe(no_mangle)]
pub extern "C" fn egretfold_element_superfine(
    base: u32,
    format: u32,
    height: u32,
    x: u32,
    y: u32,
    memory: &[u8],
    first: u32,
    bytes: &mut [u8; element_rooms::BYTES],
    count: &mut [u32; 1],
) -> u32
    ensures { SuperfineCrosses (superfine_read_of base format height x y first memory.now) result bytes.old bytes.new count.old count.new }
{
    element_rooms::superfine(base, format, height, x, y, memory, first, bytes, count)
}
