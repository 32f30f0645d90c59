// What a start that passes claims, and its count in the tallies.
ghost use Rattle.std.specs.Prelude.{◌≡◌, [], ◌+◌, ◌-◌, ◌*◌, ◌<◌, ◌≤◌};
ghost use Rattle.command.specs.declared.commands.Command.{Command};
ghost use Rattle.state.specs.Asked.{OwnAsked};
ghost use Rattle.state.specs.Cells.{party_of, shared_of, tally_cells};
ghost use Rattle.state.specs.Effects.{own_after};
ghost use Rattle.state.specs.Start.{most_claim, most_credit, most_pairs, pairs_of};
ghost use Rattle.state.specs.Valid.{DomainValid};

use state::own;

// The number of pairs of a domain.
fn pairs(i0: u32, j0: u32, i1: u32, j1: u32) -> u64
    requires { ((i0 ≤ i1) × (i1 < 4096)) × ((j0 ≤ j1) × (j1 < 4096)) }
    ensures value { result ≡ (i1 - i0 + 1) * (j1 - j0 + 1) }
    ensures most { result ≤ most_pairs }
{
    let columns = (i1 - i0 + 1) as u64;
    let rows = (j1 - j0 + 1) as u64;
    columns * rows
}

// The elements that a start claims: for each of the domain's pairs what the outputs give for one.
fn claim(own: &[u32; state::OWN_CELLS]) -> u64
    requires { ((party_of own.now []).readiness.gauge.credit ≤ most_credit) × (DomainValid (party_of own.now []).domain) }
    ensures value { result ≡ pairs_of (party_of own.now []).domain * (party_of own.now []).readiness.gauge.credit }
    ensures most { result ≤ most_claim }
{
    pairs(
        own[own::DOMAIN_I0],
        own[own::DOMAIN_J0],
        own[own::DOMAIN_I1],
        own[own::DOMAIN_J1],
    ) * own[own::CREDIT] as u64
}

// A start that passes: one run more, and the elements that it claims.
pub fn count_start(
    own: &[u32; state::OWN_CELLS],
    tallies: &mut [u64; state::TALLIES],
    shared: &[u32; state::SHARED_CELLS],
)
    requires { OwnAsked own.now tallies.old shared.now }
    ensures { tallies.new ≡ tally_cells (own_after Command.Start (shared_of shared.now) (party_of own.now tallies.old)) }
{
    let claimed = claim(own);
    tallies[0] = tallies[0] + 1;
    tallies[1] = tallies[1] + claimed;
}
