// Sessions: words one by one and in pieces, and what a session holds. Its three arrays are as `egretfold_session_begin` and
// these functions left them.
ghost use Rattle.std.specs.Prelude.{[]};
ghost use Rattle.state.specs.Asked.{Given};
ghost use Rattle.state.specs.Cells.{party_of, session_of, shared_of};
ghost use Rattle.session.specs.Feed.{feed_of};
ghost use Rattle.session.specs.Step.{step_of};
ghost use Rattle.refusal.specs.Crossing.{Crosses, Shows};
ghost use Rattle.session.specs.Answers.{Begins};
ghost use Rattle.session_rooms.specs.Rooms.{FeedCrosses, WordCrosses};
ghost use Rattle.setting_rooms.specs.Rooms.{domain_numbers, format_of, mask_numbers, standing_numbers, tally_numbers};

// A new session of an edition: nothing set, mask 65535; 3.
#[unsafe(no_mangle)]
pub extern "C" fn egretfold_session_begin(
    own: &mut [u32; state::OWN_CELLS],
    tallies: &mut [u64; state::TALLIES],
    shared: &mut [u32; state::SHARED_CELLS],
    edition: u32,
) -> u32
    ensures { Begins edition result own.old tallies.old shared.old own.new tallies.new shared.new }
{
    session_rooms::begin(own, tallies, shared, edition)
}

// One word: whether it completed a command, and that command's header and parameters; 1 to 9, 17, or 20 where the cells are a
// party's of a pair.
#[unsafe(no_mangle)]
pub extern "C" fn egretfold_session_word(
    own: &mut [u32; state::OWN_CELLS],
    tallies: &mut [u64; state::TALLIES],
    shared: &mut [u32; state::SHARED_CELLS],
    word: u32,
    command: &mut [u32; session_rooms::COMMAND_NUMBERS],
) -> u32
    requires { Given own.old tallies.old shared.old }
    ensures { WordCrosses (step_of (session_of own.old tallies.old shared.old) word) result own.new tallies.new shared.new command.old command.new }
{
    session_rooms::word(own, tallies, shared, word, command)
}

// A piece of words: the words taken and the commands that they completed, and the first refusal, if any.
#[unsafe(no_mangle)]
pub extern "C" fn egretfold_session_feed(
    own: &mut [u32; state::OWN_CELLS],
    tallies: &mut [u64; state::TALLIES],
    shared: &mut [u32; state::SHARED_CELLS],
    words: &[u32],
    fed: &mut [u64; session_rooms::PIECE_NUMBERS],
) -> u32
    requires { Given own.old tallies.old shared.old }
    ensures { FeedCrosses (feed_of (session_of own.old tallies.old shared.old) words.now) result own.new tallies.new shared.new fed.new }
{
    session_rooms::feed(own, tallies, shared, words, fed)
}

// Words taken, stopped or not, the open command's header and how many of its parameters were taken, which of 0, 7, 8 and 9 the
// settings alone give a start, and the edition.
#[unsafe(no_mangle)]
pub extern "C" fn egretfold_session_status(
    own: &[u32; state::OWN_CELLS],
    status: &mut [u32; setting_rooms::STANDING_NUMBERS],
) -> u32
    ensures { Shows (standing_numbers (party_of own.now [])) result status.new }
{
    setting_rooms::standing(own, status)
}

// Runs and claimed elements.
#[unsafe(no_mangle)]
pub extern "C" fn egretfold_session_tallies(
    tallies: &[u64; state::TALLIES],
    counts: &mut [u64; setting_rooms::TALLY_NUMBERS],
) -> u32
    ensures { Shows (tally_numbers (party_of [] tallies.now).tally) result counts.new }
{
    setting_rooms::tallies(tallies, counts)
}

// Whether the domain is set, and its bounds.
#[unsafe(no_mangle)]
pub extern "C" fn egretfold_session_domain(
    own: &[u32; state::OWN_CELLS],
    domain: &mut [u32; setting_rooms::DOMAIN_NUMBERS],
) -> u32
    ensures { Shows (domain_numbers (party_of own.now [])) result domain.new }
{
    setting_rooms::domain(own, domain)
}

// The output mask, whether the conditional mask is set and the mask, whether the test is set and the test.
#[unsafe(no_mangle)]
pub extern "C" fn egretfold_session_masks(
    shared: &[u32; state::SHARED_CELLS],
    masks: &mut [u32; setting_rooms::MASK_NUMBERS],
) -> u32
    ensures { Shows (mask_numbers (shared_of shared.now)) result masks.new }
{
    setting_rooms::masks(shared, masks)
}

// The format that the command with a header sets, of inputs and outputs the one with the number; 2 or 4.
#[unsafe(no_mangle)]
pub extern "C" fn egretfold_session_format(
    own: &[u32; state::OWN_CELLS],
    shared: &[u32; state::SHARED_CELLS],
    header: u32,
    number: u32,
    format: &mut [u32; setting_rooms::FORMAT_NUMBERS],
) -> u32
    ensures { Crosses (format_of (party_of own.now []) (shared_of shared.now) header number) result format.old format.new }
{
    setting_rooms::format(own, shared, header, number, format)
}
