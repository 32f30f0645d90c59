// Whether arrays that were kept elsewhere, on disk say, hold a session that the entries take: a yes is just what the entries require,
// for arrays of a session's lengths, whatever numbers they have. Nothing is written.
#![tactic(auto)]

pub mod party;
pub mod readiness;
pub mod settings;
pub mod tests;

ghost use Rattle.state.specs.Asked.{Given};
ghost use Rattle.state.specs.Cells.{Sized};
ghost use Rattle.judges.specs.Judged.{Judges};

// Whether the arrays hold a session: the party's own numbers, the settings, and what is kept of readiness, worked out anew.
pub fn is_session(
    own: &[u32; state::OWN_CELLS],
    tallies: &[u64; state::TALLIES],
    shared: &[u32; state::SHARED_CELLS],
) -> bool
    requires { Sized own.now tallies.now shared.now }
    ensures { Judges result (Given own.now tallies.now shared.now) }
{
    if party::is_kept(own, tallies) {
        settings::are_kept(shared) & readiness::is_kept(own, shared)
    } else {
        false
    }
}
