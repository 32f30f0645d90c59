// Addresses: C1 to C8, row steps, and small windows of every size and kind, pair by pair, byte by byte and address by
// address.
use address::{Located, Translated};
use layout::{ByteAddress, Judged, Layout};
use std::io;
use worked::tally::Tally;
use worked::windows::{linear, tiled, window_of};

// Whether a pair goes to this address.
pub fn goes_to(layout: Layout, x: u32, y: u32, at: u32) -> bool {
    match address::translate(layout, x, y) {
        Translated::At { address, run: _ } => address.0 == at,
        Translated::Refused(_) => false,
    }
}

// Whether translating a pair is refused with this number.
pub fn refused(layout: Layout, x: u32, y: u32, number: u32) -> bool {
    match address::translate(layout, x, y) {
        Translated::At { address: _, run: _ } => false,
        Translated::Refused(why) => u32::from(why) == number,
    }
}

// Whether the byte at an address leads back to this pair and place.
pub fn leads_to(layout: Layout, at: u32, x: u32, y: u32, place: u32) -> bool {
    match address::locate(layout, ByteAddress(at)) {
        Located::Pair {
            x: found_x,
            y: found_y,
            place: found,
        } => found_x == x && (found_y == y && found == place),
        Located::Refused(_) => false,
    }
}

// Whether locating an address is refused with this number.
pub fn unlocated(layout: Layout, at: u32, number: u32) -> bool {
    match address::locate(layout, ByteAddress(at)) {
        Located::Pair {
            x: _,
            y: _,
            place: _,
        } => false,
        Located::Refused(why) => u32::from(why) == number,
    }
}

// Whether a layout is accepted with this row step, or, for 0, refused with 6.
fn has_step(layout: Layout, step: u32) -> bool {
    match layout::judge(layout) {
        Judged::Accepted {
            step: found,
            span: _,
        } => found == step,
        Judged::Refused(why) => step == 0 && u32::from(why) == 6,
    }
}

fn cases() -> Tally {
    let c1 = linear(4, 2048, 100, 3);
    let c4 = tiled(1, 0, 128, 64);
    let t = Tally::new()
        .with(has_step(c1, 96))
        .with(goes_to(c1, 5, 2, 2836));
    let t = t
        .with(goes_to(c1, 95, 0, 2428))
        .with(refused(c1, 96, 0, 10));
    let t = t.with(goes_to(tiled(4, 0, 100, 20), 37, 18, 9828));
    let t = t
        .with(goes_to(c4, 64, 0, 3072))
        .with(goes_to(c4, 0, 32, 4608));
    let t = t.with(goes_to(tiled(16, 0, 16, 8), 15, 7, 1648));
    let t = t.with(refused(tiled(4, 0, 28, 1), 0, 0, 6));
    let t = t.with(goes_to(linear(4, 4294965248, 8, 64), 7, 63, 4294967292));
    t.with(refused(linear(4, 4294965248, 8, 65), 0, 0, 6))
}

// The cut of the pitch at each size, and the two bounds: the pitch's 8,188 and the row step's 4,096.
fn steps() -> Tally {
    let t = Tally::new().with(has_step(linear(1, 0, 124, 1), 96));
    let t = t.with(has_step(linear(2, 0, 124, 1), 112));
    let t = t.with(has_step(linear(4, 0, 124, 1), 120));
    let t = t.with(has_step(linear(8, 0, 124, 1), 124));
    let t = t.with(has_step(linear(16, 0, 124, 1), 124));
    let t = t
        .with(has_step(tiled(1, 0, 124, 1), 64))
        .with(has_step(tiled(2, 0, 124, 1), 96));
    let t = t
        .with(has_step(tiled(4, 0, 124, 1), 96))
        .with(has_step(tiled(8, 0, 124, 1), 112));
    let t = t.with(has_step(tiled(16, 0, 124, 1), 112));
    let t = t.with(has_step(linear(2, 0, 4108, 1), 4096));
    t.with(has_step(linear(2, 0, 4112, 1), 0))
        .with(has_step(linear(1, 0, 8188, 1), 0))
}

// Every byte of a pair's element leads back to the pair.
fn element(layout: Layout, x: u32, y: u32) -> Tally {
    let mut t = Tally::new();
    match address::translate(layout, x, y) {
        Translated::At { address, run: _ } => {
            for place in 0..layout.size {
                let at = std::num::wrapping_add_u32(address.0, place);
                t = t.with(leads_to(layout, at, x, y, place));
            }
        }
        Translated::Refused(_) => t = t.with(false),
    }
    t
}

fn row(layout: Layout, y: u32, step: u32) -> Tally {
    let mut t = Tally::new();
    for x in 0..step {
        t = t.and(element(layout, x, y));
    }
    t
}

// There and back for every pair of a window.
fn pairs(layout: Layout, step: u32) -> Tally {
    let mut t = Tally::new();
    for y in 0..layout.height {
        t = t.and(row(layout, y, step));
    }
    t
}

// What the way back says of one address: owned by a pair that goes to it, owned by nobody, or neither.
#[derive(Drop)]
struct Swept {
    owned: u64,
    nobody: u64,
}

impl Swept {
    fn with(self, layout: Layout, at: u32) -> Self {
        match address::locate(layout, ByteAddress(at)) {
            Located::Pair { x, y, place } => {
                let begins = std::num::wrapping_sub_u32(at, place);
                if goes_to(layout, x, y, begins) {
                    Swept {
                        owned: std::num::wrapping_add_u64(self.owned, 1),
                        nobody: self.nobody,
                    }
                } else {
                    self
                }
            }
            Located::Refused(why) => {
                if u32::from(why) == 12 {
                    Swept {
                        owned: self.owned,
                        nobody: std::num::wrapping_add_u64(self.nobody, 1),
                    }
                } else {
                    self
                }
            }
        }
    }
}

fn sweep(layout: Layout, first: u32, count: u32) -> Swept {
    let mut swept = Swept {
        owned: 0,
        nobody: 0,
    };
    for k in 0..count {
        swept = swept.with(layout, std::num::wrapping_add_u32(first, k));
    }
    swept
}

// A window: every pair there and back; then every address from 2,048 below the base to 2,048 past the span, of which just
// the pairs' bytes are owned.
fn window(layout: Layout) -> Tally {
    match layout::judge(layout) {
        Judged::Accepted { step, span } => {
            let t = pairs(layout, step);
            let around = std::num::wrapping_add_u32(span, 4096);
            let swept = sweep(
                layout,
                std::num::wrapping_sub_u32(layout.base.0, 2048),
                around,
            );
            // Each byte of each pair was one check.
            let bytes = t.agreed;
            let t = t.with(swept.owned == bytes);
            t.with(std::num::wrapping_add_u64(swept.nobody, bytes) == around as u64)
        }
        Judged::Refused(_) => Tally::new().with(false),
    }
}

fn windows() -> Tally {
    let mut t = Tally::new();
    for k in 0..90 {
        t = t.and(window(window_of(k)));
    }
    t
}

// The last bytes below 2^32, from both sides.
fn edges() -> Tally {
    let top = linear(4, 4294965248, 8, 64);
    let t = Tally::new().with(leads_to(top, 4294967295, 7, 63, 3));
    let t = t
        .with(unlocated(top, 4294965247, 12))
        .with(unlocated(top, 0, 12));
    let last = tiled(1, 4294965248, 64, 32);
    // All of bits 10 to 0 set: x5, x3 to x0, and y4, y2 to y0.
    let t = t
        .with(leads_to(last, 4294967295, 47, 23, 0))
        .with(goes_to(last, 0, 0, 4294965248));
    t.with(unlocated(tiled(1, 4294965248, 64, 33), 4294965248, 6))
}

pub fn run(rt: &impl Print) -> io::Result<()> {
    cases().print(rt, "C1 to C8")?;
    steps().print(rt, "row steps")?;
    windows().print(rt, "windows there and back")?;
    edges().print(rt, "the last bytes")
}
