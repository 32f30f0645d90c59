// Runs: those of C1 to C6, and of every pair of small windows of every size and kind, element by element.
use crate::addresses::goes_to;
use address::Translated;
use layout::{Judged, Layout};
use std::io;
use worked::tally::Tally;
use worked::windows::{linear, tiled, window_of};

// Whether this is a pair's run.
fn has_run(layout: Layout, x: u32, y: u32, wanted: u32) -> bool {
    match address::translate(layout, x, y) {
        Translated::At { address: _, run } => run == wanted,
        Translated::Refused(_) => false,
    }
}

fn cases() -> Tally {
    let c1 = linear(4, 2048, 100, 3);
    let c4 = tiled(1, 0, 128, 64);
    let t = Tally::new()
        .with(has_run(c1, 5, 2, 91))
        .with(has_run(c1, 95, 0, 1));
    let t = t.with(has_run(tiled(4, 0, 100, 20), 37, 18, 3));
    let t = t.with(has_run(c4, 64, 0, 8)).with(has_run(c4, 0, 32, 8));
    t.with(has_run(tiled(16, 0, 16, 8), 15, 7, 1))
}

// Each element of a pair's run stands one size after the one before, and the next one doesn't.
fn element(layout: Layout, x: u32, y: u32) -> Tally {
    let mut t = Tally::new();
    match address::translate(layout, x, y) {
        Translated::At { address, run } => {
            let mut at = address.0;
            for k in 0..run {
                t = t.with(goes_to(layout, std::num::wrapping_add_u32(x, k), y, at));
                at = std::num::wrapping_add_u32(at, layout.size);
            }
            let next = goes_to(layout, std::num::wrapping_add_u32(x, run), y, at);
            t = t.with(!next);
        }
        Translated::Refused(_) => t = t.with(false),
    }
    t
}

fn row(layout: Layout, y: u32, step: u32) -> Tally {
    let mut t = Tally::new();
    for x in 0..step {
        t = t.and(element(layout, x, y));
    }
    t
}

fn pairs(layout: Layout, step: u32) -> Tally {
    let mut t = Tally::new();
    for y in 0..layout.height {
        t = t.and(row(layout, y, step));
    }
    t
}

fn window(layout: Layout) -> Tally {
    match layout::judge(layout) {
        Judged::Accepted { step, span: _ } => pairs(layout, step),
        Judged::Refused(_) => Tally::new().with(false),
    }
}

fn windows() -> Tally {
    let mut t = Tally::new();
    for k in 0..90 {
        t = t.and(window(window_of(k)));
    }
    t
}

pub fn run(rt: &impl Print) -> io::Result<()> {
    cases().print(rt, "runs of C1 to C6")?;
    windows().print(rt, "runs, element by element")
}
