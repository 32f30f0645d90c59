// Layouts for the programs of addresses and of elements.
ghost use Rattle.std.specs.Prelude.{◌≡◌, true, false};
ghost use Rattle.worked.specs.Windows.{laid, window_of};

use layout::{ByteAddress, Layout};

pub fn linear(size: u32, base: u32, pitch: u32, height: u32) -> Layout
    ensures { result ≡ laid false size base pitch height }
{
    Layout {
        base: ByteAddress(base),
        pitch,
        height,
        size,
        tiled: false,
    }
}

pub fn tiled(size: u32, base: u32, pitch: u32, height: u32) -> Layout
    ensures { result ≡ laid true size base pitch height }
{
    Layout {
        tiled: true,
        ..linear(size, base, pitch, height)
    }
}

// Window k of 90: each size, linear and tiled, three pitches and three heights.
pub fn window_of(k: u32) -> Layout
    ensures { result ≡ window_of k }
{
    let sizes: [u32; 5] = [1, 2, 4, 8, 16];
    let pitches: [u32; 3] = [64, 132, 200];
    let heights: [u32; 3] = [1, 9, 33];
    let size = (k % 5) as usize;
    let pitch = (k / 5 % 3) as usize;
    let height = (k / 15 % 3) as usize;
    Layout {
        base: ByteAddress(4096),
        pitch: pitches[pitch],
        height: heights[height],
        size: sizes[size],
        tiled: 45 <= k,
    }
}
