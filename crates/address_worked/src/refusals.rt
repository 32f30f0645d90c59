// Refusals of the address calls, each alone and with every other: good and bad values of every argument in all
// combinations, with the number that the paper's order gives.
use crate::addresses::{goes_to, leads_to, refused, unlocated};
use layout::{ByteAddress, Layout};
use std::io;
use worked::tally::Tally;

// One combination: the first value of each list is good, those after it are bad (the height 4,096 is good too).
#[derive(Clone, Copy)]
struct Trial {
    layout: Layout,
    malformed: bool,
    broken: bool,
    x: u32,
    y: u32,
}

fn nth(k: u32) -> Trial {
    let sizes: [u32; 6] = [4, 0, 3, 5, 17, 4294967295];
    let bases: [u32; 3] = [2048, 1, 2047];
    let pitches: [u32; 5] = [100, 0, 2, 8190, 8192];
    let heights: [u32; 6] = [3, 4096, 0, 4097, 8192, 4294967295];
    let xs: [u32; 3] = [5, 96, 4294967295];
    let ys: [u32; 3] = [2, 4096, 4294967295];
    let size = (k % 6) as usize;
    let base = (k / 6 % 3) as usize;
    let pitch = (k / 18 % 5) as usize;
    let height = (k / 90 % 6) as usize;
    let x = (k / 540 % 3) as usize;
    let y = (k / 1620 % 3) as usize;
    Trial {
        layout: Layout {
            base: ByteAddress(bases[base]),
            pitch: pitches[pitch],
            height: heights[height],
            size: sizes[size],
            tiled: 4860 <= k,
        },
        malformed: size > 0 || (base > 0 || pitch > 1),
        broken: pitch == 1 || height > 1,
        x: xs[x],
        y: ys[y],
    }
}

// 3 before 6 before 10. (5, 2) of the good window stands at 2836 where linear (C1), and where tiled at 2048 + 64 + 32 + 4:
// y1 is bit 6 inside the tile, x2 bit 5 and x0 bit 2.
fn translation(t: Trial) -> bool {
    if t.malformed {
        return refused(t.layout, t.x, t.y, 3);
    }
    if t.broken {
        return refused(t.layout, t.x, t.y, 6);
    }
    if t.x > 5 || t.y > 2 {
        return refused(t.layout, t.x, t.y, 10);
    }
    goes_to(t.layout, 5, 2, if t.layout.tiled { 2148 } else { 2836 })
}

// 3 before 6 before 12; the x of the trial stands for an address.
fn way_back(t: Trial) -> bool {
    if t.malformed {
        return unlocated(t.layout, t.x, 3);
    }
    if t.broken {
        return unlocated(t.layout, t.x, 6);
    }
    if t.x < 2048 || t.x > 5000000 {
        return unlocated(t.layout, t.x, 12);
    }
    leads_to(t.layout, 2048, 0, 0, 0)
}

fn trials() -> Tally {
    let mut t = Tally::new();
    for k in 0..9720 {
        let one = nth(k);
        t = t.with(translation(one)).with(way_back(one));
    }
    t
}

pub fn run(rt: &impl Print) -> io::Result<()> {
    trials().print(rt, "refusals 3, 6, 10 and 12")
}
