// Layouts and addresses over numbers: each answer is a status, 0 or a refusal's number, with its values in a room that the caller
// lends. A refusal touches no room: 3, 6, 10 or 12.
#![tactic(auto)]

ghost use Rattle.std.specs.Prelude.{◌+◌, ◌^◌, ◌<◌};
ghost use Rattle.layout.specs.Layout.{judge_of};
ghost use Rattle.address.specs.Address.{layout_of, translate_of, locate_of, told_number};
ghost use Rattle.refusal.specs.Crossing.{Crosses};

use address::owner;
use layout::{ByteAddress, Judged, Layout};

// Lengths of rooms: a layout's row step and span; a pair's address and run; a pair's x, y and the byte's place in its element.
pub const LAYOUT_NUMBERS: usize = 2;

pub const ADDRESS_NUMBERS: usize = 2;

pub const PLACE_NUMBERS: usize = owner::NUMBERS;

// The row step and the span of a layout; 3 or 6.
pub fn judge(
    base: u32,
    pitch: u32,
    height: u32,
    size: u32,
    tiled: bool,
    room: &mut [u32; LAYOUT_NUMBERS],
) -> u32
    ensures { Crosses (judge_of base pitch height size tiled) result room.old room.new }
{
    let layout = Layout {
        base: ByteAddress(base),
        pitch,
        height,
        size,
        tiled,
    };
    match layout::judge(layout) {
        Judged::Refused(why) => u32::from(why),
        Judged::Accepted { step, span } => {
            *room = [step, span];
            0
        }
    }
}

// A translation's number as status and room.
fn cross(number: u64, room: &mut [u32; ADDRESS_NUMBERS]) -> u32
    requires { number < 2 ^ 63 + 2 ^ 32 }
    ensures { Crosses (told_number number) result room.old room.new }
{
    if number < address::REFUSED {
        *room = [
            (number % address::RUN_UNIT) as u32,
            (number / address::RUN_UNIT) as u32,
        ];
        0
    } else {
        (number - address::REFUSED) as u32
    }
}

// The address of the element at (x, y) and the run from there on; 3, 6 or 10.
pub fn translate(
    base: u32,
    pitch: u32,
    height: u32,
    size: u32,
    tiled: bool,
    x: u32,
    y: u32,
    room: &mut [u32; ADDRESS_NUMBERS],
) -> u32
    ensures { Crosses (translate_of (layout_of base pitch height size tiled) x y) result room.old room.new }
{
    // the branch stands here, so that the linear kind needs no call
    if tiled {
        cross(address::tiled_number(base, pitch, height, size, x, y), room)
    } else {
        cross(
            address::linear_number(base, pitch, height, size, x, y),
            room,
        )
    }
}

// The pair that owns the byte at an address, and the byte's place in its element; 3, 6 or 12.
pub fn locate(
    base: u32,
    pitch: u32,
    height: u32,
    size: u32,
    tiled: bool,
    address: u32,
    room: &mut [u32; PLACE_NUMBERS],
) -> u32
    ensures { Crosses (locate_of (layout_of base pitch height size tiled) address) result room.old room.new }
{
    owner::locate(base, pitch, height, size, tiled, address, room)
}
