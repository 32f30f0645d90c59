// Words of a session over numbers: a word's or a piece's answer as a status, 0 or a refusal's number (1 to 9, 17, or 20 where
// the cells are a party's of a pair), with its numbers in a room that the caller lends.
#![tactic(auto)]

ghost use Rattle.std.specs.Prelude.{[], ◌∷◌};
ghost use Rattle.state.specs.Asked.{Given};
ghost use Rattle.state.specs.Cells.{session_of};
ghost use Rattle.session.specs.Answers.{Begins};
ghost use Rattle.session.specs.Feed.{feed_of};
ghost use Rattle.session.specs.Step.{step_of};
ghost use Rattle.session_rooms.specs.Rooms.{FeedCrosses, WordCrosses};

use command::{commands, table};
use refusal::Refusal;
use session::stream;
use session::stream::Progress;

// Lengths of rooms: whether a command is complete, its header and four parameters; a piece's words taken and commands completed.
pub const COMMAND_NUMBERS: usize = 6;

pub const PIECE_NUMBERS: usize = 2;

// A new session of an edition; 3.
pub fn begin(
    own: &mut [u32; state::OWN_CELLS],
    tallies: &mut [u64; state::TALLIES],
    shared: &mut [u32; state::SHARED_CELLS],
    edition: u32,
) -> u32
    ensures { Begins edition result own.old tallies.old shared.old own.new tallies.new shared.new }
{
    match stream::begin(own, tallies, shared, edition) {
        Ok(()) => 0,
        Err(why) => u32::from(why),
    }
}

// One word: whether it completed a command, and that command's header and parameters; 1 to 9, 17, or 20 where the cells are a
// party's of a pair.
pub fn word(
    own: &mut [u32; state::OWN_CELLS],
    tallies: &mut [u64; state::TALLIES],
    shared: &mut [u32; state::SHARED_CELLS],
    word: u32,
    command: &mut [u32; COMMAND_NUMBERS],
) -> u32
    requires { Given own.old tallies.old shared.old }
    ensures { WordCrosses (step_of (session_of own.old tallies.old shared.old) word) result own.new tallies.new shared.new command.old command.new }
{
    match stream::word(own, tallies, shared, word) {
        Err(why) => u32::from(why),
        Ok(None) => {
            *command = [0; COMMAND_NUMBERS];
            0
        }
        Ok(Some(done)) => {
            let places = commands::fields(done);
            let header = table::made_header(commands::line(done));
            *command = [1, header, places.0, places.1, places.2, places.3];
            0
        }
    }
}

// A piece of one word.
// Kept (design pass 2, speed): one function that answers a word as a `stream::Fed`, for this and for a pair's run of one word, takes 111
// instructions a word here, this one 107.
fn feed_one(
    own: &mut [u32; state::OWN_CELLS],
    tallies: &mut [u64; state::TALLIES],
    shared: &mut [u32; state::SHARED_CELLS],
    word: u32,
    fed: &mut [u64; PIECE_NUMBERS],
) -> u32
    requires { Given own.old tallies.old shared.old }
    ensures { FeedCrosses (feed_of (session_of own.old tallies.old shared.old) (word ∷ [])) result own.new tallies.new shared.new fed.new }
{
    match stream::step(own, tallies, shared, word) {
        Ok(Progress::Open) => {
            *fed = [1, 0];
            0
        }
        Ok(Progress::Whole) => {
            *fed = [1, 1];
            0
        }
        Err(why) => {
            *fed = [0, 0];
            u32::from(why)
        }
    }
}

// A piece of words: the words taken and the commands that they completed, and the first refusal, if any.
pub fn feed(
    own: &mut [u32; state::OWN_CELLS],
    tallies: &mut [u64; state::TALLIES],
    shared: &mut [u32; state::SHARED_CELLS],
    words: &[u32],
    fed: &mut [u64; PIECE_NUMBERS],
) -> u32
    requires { Given own.old tallies.old shared.old }
    ensures { FeedCrosses (feed_of (session_of own.old tallies.old shared.old) words.now) result own.new tallies.new shared.new fed.new }
{
    if words.len() == 1 {
        return feed_one(own, tallies, shared, words[0], fed);
    }
    let piece = stream::feed(own, tallies, shared, words);
    *fed = [piece.taken.0, piece.commands];
    match piece.refusal {
        None => 0,
        Some(why) => u32::from(why),
    }
}
