// Layouts and addresses.
ghost use Rattle.layout.specs.Layout.{judge_of};
ghost use Rattle.address.specs.Address.{layout_of, translate_of, locate_of};
ghost use Rattle.refusal.specs.Crossing.{Crosses};

// The row step and the span of a layout; 3 or 6.
#[unsafe(no_mangle)]
pub extern "C" fn egretfold_layout(
    base: u32,
    pitch: u32,
    height: u32,
    size: u32,
    tiled: bool,
    room: &mut [u32; address_rooms::LAYOUT_NUMBERS],
) -> u32
    ensures { Crosses (judge_of base pitch height size tiled) result room.old room.new }
{
    address_rooms::judge(base, pitch, height, size, tiled, room)
}

// The address of the element at (x, y) and the run from there on; 3, 6 or 10.
#[unsafe(no_mangle)]
pub extern "C" fn egretfold_translate(
    base: u32,
    pitch: u32,
    height: u32,
    size: u32,
    tiled: bool,
    x: u32,
    y: u32,
    room: &mut [u32; address_rooms::ADDRESS_NUMBERS],
) -> u32
    ensures { Crosses (translate_of (layout_of base pitch height size tiled) x y) result room.old room.new }
{
    address_rooms::translate(base, pitch, height, size, tiled, x, y, room)
}

// The pair that owns the byte at an address, and the byte's place in its element; 3, 6 or 12.
#[unsafe(no_mangle)]
pub extern "C" fn egretfold_locate(
    base: u32,
    pitch: u32,
    height: u32,
    size: u32,
    tiled: bool,
    address: u32,
    room: &mut [u32; address_rooms::PLACE_NUMBERS],
) -> u32
    ensures { Crosses (locate_of (layout_of base pitch height size tiled) address) result room.old room.new }
{
    address_rooms::locate(base, pitch, height, size, tiled, address, room)
}
