// Whether arrays that were kept elsewhere hold a session of two parties that the entries take: a yes is just what the entries
// require. Nothing is written.
#![tactic(auto)]

ghost use Rattle.std.specs.Prelude.{◌≡◌, eqb};
ghost use Rattle.std.specs.Int.Bits.{bit_and};
ghost use Rattle.state.specs.Cells.{Sized};
ghost use Rattle.lessees.specs.Rooms.{PairGiven};
ghost use Rattle.judges.specs.Judged.{Judges};

use judges;
use state::own;

// Whether nothing is owned by both.
fn are_apart(mine: u32, other: u32) -> bool
    ensures { result ≡ eqb (bit_and mine other) 0 }
{
    mine & other == 0
}

// Whether the arrays hold two parties over the same settings, each a session with them, and nothing is owned by both.
pub fn is_pair(
    own0: &[u32; state::OWN_CELLS],
    tallies0: &[u64; state::TALLIES],
    own1: &[u32; state::OWN_CELLS],
    tallies1: &[u64; state::TALLIES],
    shared: &[u32; state::SHARED_CELLS],
) -> bool
    requires { Sized own0.now tallies0.now shared.now × Sized own1.now tallies1.now shared.now }
    ensures { Judges result (PairGiven own0.now tallies0.now own1.now tallies1.now shared.now) }
{
    let first = judges::is_session(own0, tallies0, shared);
    let second = judges::is_session(own1, tallies1, shared);
    first & (second & are_apart(own0[own::MINE], own1[own::MINE]))
}
