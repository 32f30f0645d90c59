// Document 02, request 9: two parties over one session's inputs and outputs. Each has its own cells and tallies, the settings are
// shared, and who owns which number is fixed when the session begins. A piece tells each party its numbers in a room that the caller
// lends; the entries' answers as a status stand in `rooms`.
#![tactic(auto)]

ghost use Rattle.std.specs.Prelude.{◌≡◌, Bool, Result, ℕ, ◌+◌, ◌*◌, ◌/◌, ◌<◌, ◌≤◌, ◌^◌};
ghost use lib.ListN.{length};
ghost use Rattle.state.specs.Cells.{session_of};
ghost use Rattle.session.specs.Answers.{begun_status, first_of};
ghost use Rattle.session.specs.Feed.{feed_of, first_status};
ghost use Rattle.lessees.specs.Begin.{may_begin, new_pair};
ghost use Rattle.lessees.specs.Pair.{piece_of};
ghost use Rattle.lessees.specs.Rooms.{PairBegins, PairFeeds, PairGiven, PairHeld, PairLeft, RoomFor, RunAsked, RunEnds, RunLeft, RunTo, cells_of, groups_of, pair_of, party_at, refused_first, run_of, sent_of, told_more, untold, whole_group, word_told};

pub mod rooms;

use refusal::Refusal;
use session::stream;
use session::stream::{Fed, Progress};
use state::edition;

// What a piece tells a party: words taken, commands completed, first refusal; and both parties.
pub const PARTS: usize = 6;

// The numbers of inputs and of outputs that there are, as bits.
const INPUTS: u32 = 65536;

const OUTPUTS: u32 = 16;

// Whether there is the edition, and no bit is set for an input or output that there isn't.
// Kept (design pass 4, speed): joined by && all three are tested in any case, and a refusal takes 38 instructions with its caller, so 31.
fn may_begin(inputs: u32, outputs: u32, edition: u32) -> bool
    ensures { result ≡ may_begin inputs outputs edition }
{
    if !edition::is_known(edition) {
        return false;
    }
    if INPUTS <= inputs {
        return false;
    }
    outputs < OUTPUTS
}

// Kept (design pass 2, C interface; also `begin`, `take_runs` and `feed`): a caller in C lends each party's two arrays by themselves.
// A new session of two parties and an edition.
fn make(
    own0: &mut [u32; state::OWN_CELLS],
    tallies0: &mut [u64; state::TALLIES],
    own1: &mut [u32; state::OWN_CELLS],
    tallies1: &mut [u64; state::TALLIES],
    shared: &mut [u32; state::SHARED_CELLS],
    inputs: u32,
    outputs: u32,
    edition: u32,
)
    requires { (inputs < 65536) × (outputs < 16) }
    ensures { PairHeld (new_pair inputs outputs edition) own0.new tallies0.new own1.new tallies1.new shared.new }
{
    let owners = inputs + INPUTS * outputs;
    stream::begin_party(own0, tallies0, owners::EVERYTHING - owners, edition);
    stream::begin_party(own1, tallies1, owners, edition);
    stream::begin_settings(shared);
}

// A new session of two parties and an edition: bit n of `inputs` or `outputs` is set where input or output n is party 1's. 3, for the
// edition before the bits, and nothing is touched then.
pub fn begin(
    own0: &mut [u32; state::OWN_CELLS],
    tallies0: &mut [u64; state::TALLIES],
    own1: &mut [u32; state::OWN_CELLS],
    tallies1: &mut [u64; state::TALLIES],
    shared: &mut [u32; state::SHARED_CELLS],
    inputs: u32,
    outputs: u32,
    edition: u32,
) -> Result<(), Refusal>
    ensures { PairBegins inputs outputs edition (begun_status result) own0.old tallies0.old own1.old tallies1.old shared.old own0.new tallies0.new own1.new tallies1.new shared.new }
{
    if may_begin(inputs, outputs, edition) {
        make(
            own0, tallies0, own1, tallies1, shared, inputs, outputs, edition,
        );
        return Ok(());
    }
    Err(Refusal::Malformed)
}

// The party of a word: bit k of number i is word 32 i + k's.
fn party_of(parties: &[u32], at: usize) -> bool
    requires { at / 32 < length parties.now }
    ensures { result ≡ party_at parties.now at }
{
    owners::is_on(parties[at / 32], (at % 32) as u32)
}

// The number of 32 words that are all one party's.
fn whole_group(party: bool) -> u32
    ensures { result ≡ whole_group party }
{
    if party { 0xFFFF_FFFF } else { 0 }
}

// Where groups of 32 words end that are all one party's, from a group on: a long run is passed by groups.
fn groups_end(parties: &[u32], groups: usize, from: usize, party: bool) -> usize
    requires { (from ≤ groups) × (groups ≤ length parties.now) }
    ensures { RunTo parties.now (32 * groups) (32 * from) party (32 * result) }
{
    let whole = whole_group(party);
    for at in from..groups {
        if parties[at] != whole {
            return at;
        }
    }
    groups
}

// How far one party's words surely go from a word of the party on: whole groups where the word begins one, else past it.
fn passed(parties: &[u32], length: usize, from: usize, party: bool) -> usize
    requires { (from < length) × ((length ≤ 32 * lib.ListN.length parties.now) × (party ≡ party_at parties.now from)) }
    ensures { RunTo parties.now length from party result × (from < result) }
{
    let next = from + 1;
    if from % 32 == 0 {
        let end = 32 * groups_end(parties, length / 32, from / 32, party);
        if next < end {
            return end;
        }
    }
    next
}

// Where the run of one party's words ends that a word of the party begins.
fn run_end(parties: &[u32], length: usize, from: usize, party: bool) -> usize
    requires { (from < length) × ((length ≤ 32 * lib.ListN.length parties.now) × (party ≡ party_at parties.now from)) }
    ensures { RunEnds parties.now length from party result }
{
    for at in passed(parties, length, from, party)..length {
        if party_of(parties, at) != party {
            return at;
        }
    }
    length
}

// What a party is told of a piece: the words taken, the commands that they completed, and the first refusal, if any.
#[derive(Drop)]
pub struct Told {
    pub taken: u64,
    pub commands: u64,
    pub refusal: Option<Refusal>,
}

impl Told {
    // Nothing yet.
    fn new() -> Told
        ensures { result ≡ untold }
    {
        Told {
            taken: 0,
            commands: 0,
            refusal: None,
        }
    }

    // A refusal of one of the party's words: the first one stays.
    fn refuse(&mut self, why: Refusal)
        ensures { self.new ≡ refused_first self.old why }
    {
        if self.refusal.is_none() {
            self.refusal = Some(why);
        }
    }

    // What a run tells its party, added to what it was told before.
    fn add(&mut self, run: Fed)
        requires { RoomFor (cells_of self.old) run.taken.0 run.commands }
        ensures { cells_of self.new ≡ told_more (cells_of self.old) run.taken.0 run.commands (first_status (first_of run.refusal)) }
    {
        self.taken = self.taken + run.taken.0;
        self.commands = self.commands + run.commands;
        if let Some(why) = run.refusal {
            self.refuse(why);
        }
    }

    // The same of a run of one word.
    fn add_word(&mut self, answer: Result<Progress, Refusal>)
        requires { (self.old.taken + 1 < 2 ^ 64) × (self.old.commands + 1 < 2 ^ 64) }
        ensures { self.new ≡ word_told self.old answer }
    {
        match answer {
            Ok(Progress::Open) => {
                self.taken = self.taken + 1;
            }
            Ok(Progress::Whole) => {
                self.taken = self.taken + 1;
                self.commands = self.commands + 1;
            }
            Err(why) => self.refuse(why),
        }
    }

    // The first refusal as a number, 0 for none.
    fn number(&self) -> u64
        ensures { result ≡ first_status (first_of self.now.refusal) }
    {
        match self.refusal {
            None => 0,
            Some(why) => u32::from(why) as u64,
        }
    }
}

// A run of one party's words. Those after a refused one change nothing: the party is stopped.
fn take_run(
    own: &mut [u32; state::OWN_CELLS],
    tallies: &mut [u64; state::TALLIES],
    shared: &mut [u32; state::SHARED_CELLS],
    words: &[u32],
    told: &mut Told,
)
    requires { RunAsked own.old tallies.old shared.old words.now (cells_of told.old) }
    ensures { RunLeft (feed_of (session_of own.old tallies.old shared.old) words.now) own.new tallies.new shared.new (cells_of told.old) (cells_of told.new) }
{
    told.add(stream::feed(own, tallies, shared, words));
}

// The run of a piece's words from a place up to its end.
fn take_part(
    own: &mut [u32; state::OWN_CELLS],
    tallies: &mut [u64; state::TALLIES],
    shared: &mut [u32; state::SHARED_CELLS],
    words: &[u32],
    from: usize,
    end: usize,
    told: &mut Told,
)
    requires { (from ≤ end) × (end ≤ length words.now) × RunAsked own.old tallies.old shared.old (run_of words.now from end) (cells_of told.old) }
    ensures { RunLeft (feed_of (session_of own.old tallies.old shared.old) (run_of words.now from end)) own.new tallies.new shared.new (cells_of told.old) (cells_of told.new) }
{
    if end - from == 1 {
        told.add_word(stream::step(own, tallies, shared, words[from]));
        return;
    }
    take_run(own, tallies, shared, &words[from..end], told);
}

// A piece of both parties' words with their parties' numbers, one for each 32 words: runs of one party's words, one after the other.
fn take_runs(
    own0: &mut [u32; state::OWN_CELLS],
    tallies0: &mut [u64; state::TALLIES],
    own1: &mut [u32; state::OWN_CELLS],
    tallies1: &mut [u64; state::TALLIES],
    shared: &mut [u32; state::SHARED_CELLS],
    words: &[u32],
    parties: &[u32],
    fed: &mut [u64; PARTS],
)
    requires { PairGiven own0.old tallies0.old own1.old tallies1.old shared.old × (length parties.now ≡ groups_of (length words.now)) }
    ensures { PairLeft (piece_of (pair_of own0.old tallies0.old own1.old tallies1.old shared.old) (sent_of words.now parties.now)) own0.new tallies0.new own1.new tallies1.new shared.new fed.new }
{
    let mut told0 = Told::new();
    let mut told1 = Told::new();
    // Kept (design pass 3, no plainer): a turn takes a whole run, so no range counts the words.
    let mut at: usize = 0;
    while at < words.len() {
        let party = party_of(parties, at);
        let end = run_end(parties, words.len(), at, party);
        if party {
            take_part(own1, tallies1, shared, words, at, end, &mut told1);
        } else {
            take_part(own0, tallies0, shared, words, at, end, &mut told0);
        }
        at = end;
    }
    *fed = [
        told0.taken,
        told0.commands,
        told0.number(),
        told1.taken,
        told1.commands,
        told1.number(),
    ];
}

// A piece of both parties' words: it runs on past a refused one. 11, where the parties' numbers aren't one for each 32 words, and
// nothing is touched then.
pub fn feed(
    own0: &mut [u32; state::OWN_CELLS],
    tallies0: &mut [u64; state::TALLIES],
    own1: &mut [u32; state::OWN_CELLS],
    tallies1: &mut [u64; state::TALLIES],
    shared: &mut [u32; state::SHARED_CELLS],
    words: &[u32],
    parties: &[u32],
    fed: &mut [u64; PARTS],
) -> Result<(), Refusal>
    requires { PairGiven own0.old tallies0.old own1.old tallies1.old shared.old }
    ensures { PairFeeds words.now parties.now (begun_status result) own0.old tallies0.old own1.old tallies1.old shared.old fed.old own0.new tallies0.new own1.new tallies1.new shared.new fed.new }
{
    let groups = words.len() / 32 + (words.len() % 32 + 31) / 32;
    if parties.len() == groups {
        take_runs(own0, tallies0, own1, tallies1, shared, words, parties, fed);
        return Ok(());
    }
    Err(Refusal::WrongLength)
}
