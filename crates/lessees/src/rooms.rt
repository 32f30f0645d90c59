// The entries as a status: 0, or a refusal's number.
ghost use Rattle.lessees.specs.Rooms.{PairBegins, PairFeeds, PairGiven};

// Kept (design pass 1, C interface): each function below hands out a status number.
// Kept (design pass 2, C interface): a caller in C lends each party's two arrays by themselves.

// A new session of two parties and an edition: bit n of `inputs` or `outputs` is set where input or output n is party 1's. 3.
pub fn begin(
    own0: &mut [u32; state::OWN_CELLS],
    tallies0: &mut [u64; state::TALLIES],
    own1: &mut [u32; state::OWN_CELLS],
    tallies1: &mut [u64; state::TALLIES],
    shared: &mut [u32; state::SHARED_CELLS],
    inputs: u32,
    outputs: u32,
    edition: u32,
) -> u32
    ensures { PairBegins inputs outputs edition result own0.old tallies0.old own1.old tallies1.old shared.old own0.new tallies0.new own1.new tallies1.new shared.new }
{
    match crate::begin(
        own0, tallies0, own1, tallies1, shared, inputs, outputs, edition,
    ) {
        Ok(()) => 0,
        Err(why) => u32::from(why),
    }
}

// A piece of both parties' words: for each party the words taken, the commands that they completed, and its first refusal. 11.
pub fn feed(
    own0: &mut [u32; state::OWN_CELLS],
    tallies0: &mut [u64; state::TALLIES],
    own1: &mut [u32; state::OWN_CELLS],
    tallies1: &mut [u64; state::TALLIES],
    shared: &mut [u32; state::SHARED_CELLS],
    words: &[u32],
    parties: &[u32],
    fed: &mut [u64; crate::PARTS],
) -> u32
    requires { PairGiven own0.old tallies0.old own1.old tallies1.old shared.old }
    ensures { PairFeeds words.now parties.now result own0.old tallies0.old own1.old tallies1.old shared.old fed.old own0.new tallies0.new own1.new tallies1.new shared.new fed.new }
{
    match crate::feed(own0, tallies0, own1, tallies1, shared, words, parties, fed) {
        Ok(()) => 0,
        Err(why) => u32::from(why),
    }
}
