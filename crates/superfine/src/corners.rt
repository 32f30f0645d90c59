// The four addresses of a superfine read. The layout is judged once for all four.
ghost use Rattle.std.specs.Prelude.{◌≡◌, true, false, ◌+◌, ◌/◌};
ghost use Rattle.address.specs.Offset.{offset_of};
ghost use Rattle.superfine.specs.Corners.{CornerAsked, CornersAsked, corners_at};
ghost use Rattle.superfine.specs.Superfine.{corners_of, told_corners};

use address::offset;
use layout::{ByteAddress, Layout};
use refusal::Refusal;

// No row step is above 4,096.
const STEP_MOST: u32 = 4096;

// The addresses of (x + 1, y), (x, y + 1), (x + 1, y + 1) and (x, y).
#[derive(Drop)]
pub enum Corners {
    At {
        right: ByteAddress,
        below: ByteAddress,
        across: ByteAddress,
        own: ByteAddress,
    },
    Refused(Refusal),
}

// The address of a pair inside.
fn corner(base: u32, stride: u32, size: u32, tiled: bool, x: u32, y: u32) -> u32
    requires { CornerAsked base stride size tiled x y }
    ensures { result ≡ base + offset_of tiled size (stride / size) x y }
{
    base + offset::offset(tiled, size, stride, x, y)
}

// The four addresses, all pairs being inside.
fn around(base: u32, stride: u32, size: u32, tiled: bool, x: u32, y: u32) -> Corners
    requires { CornersAsked base stride size tiled x y }
    ensures { told_corners result ≡ corners_at base (stride / size) size tiled x y }
{
    let right = corner(base, stride, size, tiled, x + 1, y);
    let below = corner(base, stride, size, tiled, x, y + 1);
    let across = corner(base, stride, size, tiled, x + 1, y + 1);
    let own = corner(base, stride, size, tiled, x, y);
    Corners::At {
        right: ByteAddress(right),
        below: ByteAddress(below),
        across: ByteAddress(across),
        own: ByteAddress(own),
    }
}

// The same for linear layouts and for the tiled ones of a superfine read's two sizes. Each is a function of its own so that the
// compiler expands the four offsets in it: it doesn't expand a call that it takes for a rare one, as it does behind many tests.
fn linear(base: u32, stride: u32, size: u32, x: u32, y: u32) -> Corners
    requires { CornersAsked base stride size false x y }
    ensures { told_corners result ≡ corners_at base (stride / size) size false x y }
{
    around(base, stride, size, false, x, y)
}

fn tiled_2(base: u32, stride: u32, x: u32, y: u32) -> Corners
    requires { CornersAsked base stride 2 true x y }
    ensures { told_corners result ≡ corners_at base (stride / 2) 2 true x y }
{
    around(base, stride, 2, true, x, y)
}

fn tiled_4(base: u32, stride: u32, x: u32, y: u32) -> Corners
    requires { CornersAsked base stride 4 true x y }
    ensures { told_corners result ≡ corners_at base (stride / 4) 4 true x y }
{
    around(base, stride, 4, true, x, y)
}

fn tiled(base: u32, stride: u32, size: u32, x: u32, y: u32) -> Corners
    requires { CornersAsked base stride size true x y }
    ensures { told_corners result ≡ corners_at base (stride / size) size true x y }
{
    match size {
        2 => tiled_2(base, stride, x, y),
        4 => tiled_4(base, stride, x, y),
        _ => around(base, stride, size, true, x, y),
    }
}

// The four addresses; or 3 and 6 for a layout that isn't accepted, 10 where one of the four pairs is outside. x and y are held
// against their bounds before they grow by 1, so that no sum wraps.
pub fn addresses(layout: Layout, x: u32, y: u32) -> Corners
    ensures { told_corners result ≡ corners_of layout x y }
{
    let base = layout.base.0;
    let size = layout.size;
    if !layout::well_formed(base, layout.pitch, size) {
        return Corners::Refused(Refusal::Malformed);
    }
    let stride = layout::window_stride(base, layout.pitch, layout.height, size, layout.tiled);
    if stride < 1 {
        return Corners::Refused(Refusal::WindowRule);
    }
    if STEP_MOST <= x {
        return Corners::Refused(Refusal::PairOutside);
    }
    if stride <= (x + 1) * size {
        return Corners::Refused(Refusal::PairOutside);
    }
    if layout.height <= y {
        return Corners::Refused(Refusal::PairOutside);
    }
    if layout.height <= y + 1 {
        return Corners::Refused(Refusal::PairOutside);
    }
    if layout.tiled {
        tiled(base, stride, size, x, y)
    } else {
        linear(base, stride, size, x, y)
    }
}
