// What is kept of readiness, judged by working it out anew from the settings.
ghost use Rattle.std.specs.Prelude.{◌≡◌, [], ◌<◌};
ghost use Rattle.laws.specs.Choice.{pick};
ghost use Rattle.state.specs.State.{unset};
ghost use Rattle.state.specs.Cells.{buffer_at, party_of, party_cells, shared_of};
ghost use Rattle.state.specs.Effects.{renewed, window_from};
ghost use Rattle.state.specs.Readiness.{readiness_for, window_for};
ghost use Rattle.judges.specs.Judged.{WorkAsked, same_readiness, window_kept};

use command::format;
use command::format::Window;
use start::ready;
use state::{own, settings};

// How many numbers are kept of readiness, from own::READINESS on.
const NUMBERS: usize = 14;

// The window of the output whose cells begin at a place. Another party's is as if it weren't set, and its words 0.
fn window_at(owned: bool, shared: &[u32; state::SHARED_CELLS], at: usize) -> Window
    requires { at < 98 }
    ensures { window_from result.step result.span ≡ window_for (pick owned (buffer_at shared.now at) unset) }
{
    if owned {
        format::window_of(shared[at + 1], shared[at + 2], shared[at + 3]).unwrap_or(
            format::NO_WINDOW,
        )
    } else {
        format::NO_WINDOW
    }
}

// Keeps the window of one output of the settings.
fn keep_window(own: &mut [u32; state::OWN_CELLS], shared: &[u32; state::SHARED_CELLS], number: u32)
    requires { number < 4 }
    ensures { own.new ≡ party_cells (window_kept number (shared_of shared.now) (party_of own.old [])) }
{
    let owned = owners::is_on(own[own::MINE], owners::FIRST_OUTPUT + number);
    let window = window_at(owned, shared, settings::OUTPUTS + 4 * number as usize);
    own::set_window(own, number, window.step, window.span);
}

// Works out what the settings alone give a start, whatever was kept of it.
fn work_out(own: &mut [u32; state::OWN_CELLS], shared: &[u32; state::SHARED_CELLS])
    requires { WorkAsked own.old shared.now }
    ensures { own.new ≡ party_cells (renewed (shared_of shared.now) (party_of own.old [])) }
{
    keep_window(own, shared, 0);
    keep_window(own, shared, 1);
    keep_window(own, shared, 2);
    keep_window(own, shared, 3);
    ready::renew(own, shared);
}

// Whether two parties' numbers of readiness are the same.
fn are_same(own: &[u32; state::OWN_CELLS], fresh: &[u32; state::OWN_CELLS]) -> bool
    ensures { result ≡ same_readiness (party_of own.now []).readiness (party_of fresh.now []).readiness }
{
    let mut good = true;
    for k in 0..NUMBERS {
        good = good & (own[own::READINESS + k] == fresh[own::READINESS + k]);
    }
    good
}

// Whether what is kept of readiness is what the settings give.
pub fn is_kept(own: &[u32; state::OWN_CELLS], shared: &[u32; state::SHARED_CELLS]) -> bool
    requires { WorkAsked own.now shared.now }
    ensures { result ≡ same_readiness (party_of own.now []).readiness (readiness_for (party_of own.now []) (shared_of shared.now)) }
{
    let mut fresh = *own;
    work_out(&mut fresh, shared);
    are_same(own, &fresh)
}
