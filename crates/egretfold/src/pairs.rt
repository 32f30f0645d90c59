// Two parties over one session: each has its own numbers and tallies, which the functions of a session take as they are; the settings
// are shared.

ghost use Rattle.lessees.specs.Rooms.{PairBegins, PairFeeds, PairGiven};

// A new session of two parties and an edition: bit n of `inputs` or `outputs` is set where input or output n is party 1's. 3.
#[unsafe(no_mangle)]
pub extern "C" fn egretfold_pair_begin(
    own0: &mut [u32; state::OWN_CELLS],
    tallies0: &mut [u64; state::TALLIES],
    own1: &mut [u32; state::OWN_CELLS],
    tallies1: &mut [u64; state::TALLIES],
    shared: &mut [u32; state::SHARED_CELLS],
    inputs: u32,
    outputs: u32,
    edition: u32,
) -> u32
    ensures { PairBegins inputs outputs edition result own0.old tallies0.old own1.old tallies1.old shared.old own0.new tallies0.new own1.new tallies1.new shared.new }
{
    lessees::rooms::begin(
        own0, tallies0, own1, tallies1, shared, inputs, outputs, edition,
    )
}

// A piece of both parties' words: for each party the words taken, the commands that they completed, and its first refusal. 11.
#[unsafe(no_mangle)]
pub extern "C" fn egretfold_pair_feed(
    own0: &mut [u32; state::OWN_CELLS],
    tallies0: &mut [u64; state::TALLIES],
    own1: &mut [u32; state::OWN_CELLS],
    tallies1: &mut [u64; state::TALLIES],
    shared: &mut [u32; state::SHARED_CELLS],
    words: &[u32],
    parties: &[u32],
    fed: &mut [u64; lessees::PARTS],
) -> u32
    requires { PairGiven own0.old tallies0.old own1.old tallies1.old shared.old }
    ensures { PairFeeds words.now parties.now result own0.old tallies0.old own1.old tallies1.old shared.old fed.old own0.new tallies0.new own1.new tallies1.new shared.new fed.new }
{
    lessees::rooms::feed(own0, tallies0, own1, tallies1, shared, words, parties, fed)
}
