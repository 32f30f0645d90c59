// The words of a stream, one by one and in pieces.
ghost use Rattle.std.specs.Prelude.{◌≡◌, [], ◌<◌, ◌≤◌, Ok, length, drop};
ghost use Rattle.laws.specs.Choice.{◌and◌};
ghost use Rattle.refusal.specs.Number.{number_of};
ghost use Rattle.command.specs.Kinds.{allowed, kind_of};
ghost use Rattle.owners.specs.Owners.{may_name};
ghost use Rattle.state.specs.State.{new_session, new_party_of, new_shared};
ghost use Rattle.state.specs.Effects.{limit, with_parameter};
ghost use Rattle.session.specs.Step.{completing, parameter_step, placing, step_of};
ghost use Rattle.state.specs.Cells.{party_of, session_of, shared_cells};
ghost use Rattle.state.specs.Asked.{Given, Held, HeldOwn};
ghost use Rattle.session.specs.Asked.{CompleteAsked, Fold, Judged, Left, OpenAsked, ParameterAsked, Reach, Read, RefusalAsked, Told, refusal_at, stored_in};
ghost use Rattle.session.specs.Answers.{Begins, PieceLeft, begun_status, last_reply_of, reply_of};
ghost use Rattle.session.specs.Feed.{feed_of};

use command::commands::Command;
use command::{commands, kinds, table};
use refusal;
use refusal::Refusal;
use start::ready;
use state::own::WordPosition;
use state::{edition, own, settings};

// Words that a session takes before it answers 17.
const WORD_LIMIT: u32 = 1000000000;

// How far a word brought its command: it is still open, or all its words are there.
#[derive(Clone, Copy)]
pub enum Progress {
    Open,
    Whole,
}

// The refusal of a command that isn't accepted though each of its parameters is allowed: of a domain 5, of a start the number that
// is stored of the settings, and 6 of a command that describes a window.
fn refusal_of(own: &[u32; state::OWN_CELLS], line: u32) -> Refusal
    requires { RefusalAsked own.now line }
    ensures { number_of result ≡ refusal_at line (stored_in own.now) }
{
    match line {
        table::SET_DOMAIN => Refusal::DomainCrossed,
        table::START_PROGRAM => refusal::with_number(own[own::READINESS]),
        _ => Refusal::WindowRule,
    }
}

// All parameters are there: the command is taken, or the session stopped with its refusal.
fn complete(
    own: &mut [u32; state::OWN_CELLS],
    tallies: &mut [u64; state::TALLIES],
    shared: &mut [u32; state::SHARED_CELLS],
) -> Result<(), Refusal>
    requires { CompleteAsked own.old tallies.old shared.old }
    ensures { Judged (party_of own.old []).opened (session_of own.old tallies.old shared.old) result own.new tallies.new shared.new }
{
    let line = own[own::LINE];
    let p0 = own[own::PARAMETER_0];
    let p1 = own[own::PARAMETER_1];
    let p2 = own[own::PARAMETER_2];
    let p3 = own[own::PARAMETER_3];
    if 0 < accept::take_last(own, tallies, shared, line, p0, p1, p2, p3) {
        own::close(own);
        return Ok(());
    }
    let why = refusal_of(own, line);
    own::stop(own);
    Err(why)
}

// A parameter that its kind allows. The last one is placed and not yet counted: the command is still to be judged.
fn placed(
    own: &mut [u32; state::OWN_CELLS],
    tallies: &[u64; state::TALLIES],
    shared: &[u32; state::SHARED_CELLS],
    word: u32,
) -> Progress
    requires { ParameterAsked own.old tallies.now shared.now word }
    ensures { Read (placing (with_parameter (party_of own.old []).opened word) (session_of own.old tallies.now shared.now)) (Ok result) own.new tallies.now shared.now }
{
    let line = own[own::LINE];
    let count = own[own::COUNT];
    own::place(own, count, word);
    if count + 1 < table::parameters(line) {
        own::count_word(own);
        return Progress::Open;
    }
    Progress::Whole
}

// Whether a word is taken as parameter `count` of a line: its kind allows it, and it names nothing but what is owned.
fn is_taken(mine: u32, line: u32, count: u32, word: u32) -> bool
    requires { (line < 21) × (count < 4) }
    ensures { result ≡ (allowed (kind_of line count) word and may_name mine (kind_of line count) word) }
{
    kinds::place_allowed(line, count, word) && owners::may_name(mine, line, count, word)
}

// A word where a command is open: judged by the kind of the parameter that it is.
fn parameter(
    own: &mut [u32; state::OWN_CELLS],
    tallies: &[u64; state::TALLIES],
    shared: &[u32; state::SHARED_CELLS],
    word: u32,
) -> Result<Progress, Refusal>
    requires { OpenAsked own.old tallies.now shared.now }
    ensures { Read (parameter_step (session_of own.old tallies.now shared.now) word) result own.new tallies.now shared.now }
{
    let line = own[own::LINE];
    let count = own[own::COUNT];
    if is_taken(own[own::MINE], line, count, word) {
        return Ok(placed(own, tallies, shared, word));
    }
    let fault = owners::fault_at(line, count, word);
    own::stop(own);
    Err(fault)
}

// One word up to a command's end, where the cells hold the whole command, which is still to be judged. 1 comes before 17, and 17
// before the word is looked at.
fn read(
    own: &mut [u32; state::OWN_CELLS],
    tallies: &[u64; state::TALLIES],
    shared: &[u32; state::SHARED_CELLS],
    word: u32,
) -> Result<Progress, Refusal>
    requires { Given own.old tallies.now shared.now }
    ensures { Read (step_of (session_of own.old tallies.now shared.now) word) result own.new tallies.now shared.now }
{
    if own[own::STOPPED] == 1 {
        return Err(Refusal::Stopped);
    }
    if WORD_LIMIT <= own[own::TAKEN] {
        own::stop(own);
        return Err(Refusal::WordLimit);
    }
    if own[own::LINE] != own::NO_LINE {
        return parameter(own, tallies, shared, word);
    }
    match table::line_of(word) {
        None => {
            own::stop(own);
            Err(Refusal::UnknownHeader)
        }
        Some(line) => {
            if owners::may_open(own[own::MINE], line) {
                own::open_line(own, line);
                return Ok(Progress::Open);
            }
            own::stop(own);
            Err(Refusal::NotOwned)
        }
    }
}

// One word: how far it brought its command, which is judged where it is whole.
pub fn step(
    own: &mut [u32; state::OWN_CELLS],
    tallies: &mut [u64; state::TALLIES],
    shared: &mut [u32; state::SHARED_CELLS],
    word: u32,
) -> Result<Progress, Refusal>
    requires { Given own.old tallies.old shared.old }
    ensures { Told (step_of (session_of own.old tallies.old shared.old) word) result own.new tallies.new shared.new }
{
    let progress = read(own, tallies, shared, word)?;
    if let Progress::Whole = progress {
        complete(own, tallies, shared)?;
    }
    Ok(progress)
}

// The answer to a command's last word: the cells hold the command until it is judged.
fn finish(
    own: &mut [u32; state::OWN_CELLS],
    tallies: &mut [u64; state::TALLIES],
    shared: &mut [u32; state::SHARED_CELLS],
) -> Result<Command, Refusal>
    requires { CompleteAsked own.old tallies.old shared.old }
    ensures { Left (completing (party_of own.old []).opened (session_of own.old tallies.old shared.old)) (last_reply_of result) own.new tallies.new shared.new }
{
    let line = own[own::LINE];
    let p0 = own[own::PARAMETER_0];
    let p1 = own[own::PARAMETER_1];
    let p2 = own[own::PARAMETER_2];
    let p3 = own[own::PARAMETER_3];
    complete(own, tallies, shared)?;
    Ok(commands::build(line, p0, p1, p2, p3))
}

// One word: the command that it completed, or none where the command is still open.
pub fn word(
    own: &mut [u32; state::OWN_CELLS],
    tallies: &mut [u64; state::TALLIES],
    shared: &mut [u32; state::SHARED_CELLS],
    word: u32,
) -> Result<Option<Command>, Refusal>
    requires { Given own.old tallies.old shared.old }
    ensures { Left (step_of (session_of own.old tallies.old shared.old) word) (reply_of result) own.new tallies.new shared.new }
{
    match read(own, tallies, shared, word)? {
        Progress::Open => Ok(None),
        Progress::Whole => Ok(Some(finish(own, tallies, shared)?)),
    }
}

// A new party of an edition, that owns so much: no word taken; a start would get 7, and no output asks anything of a domain.
pub fn begin_party(
    own: &mut [u32; state::OWN_CELLS],
    tallies: &mut [u64; state::TALLIES],
    mine: u32,
    edition: u32,
)
    ensures { HeldOwn (new_party_of mine edition) own.new tallies.new }
{
    *own = [0; state::OWN_CELLS];
    own[own::MINE] = mine;
    own[own::EDITION] = edition;
    own[own::LINE] = own::NO_LINE;
    own[own::READINESS] = ready::UNSET;
    own[own::COLUMNS] = ready::MOST_EXTENT;
    own[own::ROWS] = ready::MOST_EXTENT;
    own[own::APART] = 1;
    *tallies = [0; state::TALLIES];
}

// New settings: nothing set, mask 65535.
pub fn begin_settings(shared: &mut [u32; state::SHARED_CELLS])
    ensures { shared.new ≡ shared_cells new_shared }
{
    *shared = [0; state::SHARED_CELLS];
    shared[settings::MASK] = 65535;
}

// A new session of an edition, of one party that owns every number.
fn make(
    own: &mut [u32; state::OWN_CELLS],
    tallies: &mut [u64; state::TALLIES],
    shared: &mut [u32; state::SHARED_CELLS],
    edition: u32,
)
    ensures { Held (new_session edition) own.new tallies.new shared.new }
{
    begin_party(own, tallies, owners::EVERYTHING, edition);
    begin_settings(shared);
}

// Begins a session of an edition; 3 where it is neither 1 nor 2, and nothing is touched then.
pub fn begin(
    own: &mut [u32; state::OWN_CELLS],
    tallies: &mut [u64; state::TALLIES],
    shared: &mut [u32; state::SHARED_CELLS],
    edition: u32,
) -> Result<(), Refusal>
    ensures { Begins edition (begun_status result) own.old tallies.old shared.old own.new tallies.new shared.new }
{
    if edition::is_known(edition) {
        make(own, tallies, shared, edition);
        return Ok(());
    }
    Err(Refusal::Malformed)
}

// What a piece is answered: the words taken, which is also the place of the refused word if there is one; the commands
// that they completed; and the first refusal, if any.
#[derive(Drop)]
pub struct Fed {
    pub taken: WordPosition,
    pub commands: u64,
    pub refusal: Option<Refusal>,
}

// How many of the next words whole commands may take: none where the session is stopped or a command is open, and no more than
// there are left and the session has room for.
fn reach(own: &[u32; state::OWN_CELLS], left: usize) -> usize
    requires { (party_of own.now []).taken ≤ limit }
    ensures { (result ≤ left) × Reach own.now result }
{
    if own[own::STOPPED] == 1 {
        return 0;
    }
    let line = own[own::LINE];
    if line != own::NO_LINE {
        return 0;
    }
    let room = (WORD_LIMIT - own[own::TAKEN]) as usize;
    if room < left {
        return room;
    }
    left
}

// The words of the commands that were taken whole, and how many commands they are.
#[derive(Drop)]
struct TakenWhole {
    words: usize,
    commands: u64,
}

// The commands that lie whole in a piece from a place on and are accepted, one after another, while the longest would fit. What keeps
// the session from taking any is asked once, before the first, and not where the piece is too short for one.
fn take_commands(
    own: &mut [u32; state::OWN_CELLS],
    tallies: &mut [u64; state::TALLIES],
    shared: &mut [u32; state::SHARED_CELLS],
    words: &[u32],
    from: usize,
) -> TakenWhole
    requires { Given own.old tallies.old shared.old × (from ≤ length words.now) }
    ensures { Fold (session_of own.old tallies.old shared.old) (drop from words.now) own.new tallies.new shared.new result.words result.commands }
{
    let left = words.len() - from;
    if left < accept::MOST_WORDS {
        return TakenWhole {
            words: 0,
            commands: 0,
        };
    }
    let room = reach(own, left);
    // Kept (design pass 3, no plainer; also the loop in `feed`): a turn takes as many words as its command has, so no range counts them.
    let mut taken: usize = 0;
    let mut commands: u64 = 0;
    while accept::MOST_WORDS <= room - taken {
        let at = from + taken;
        let whole = accept::take(own, tallies, shared, words, WordPosition(at as u64));
        if whole < 1 {
            return TakenWhole {
                words: taken,
                commands,
            };
        }
        commands = commands + 1;
        taken = taken + whole as usize;
    }
    TakenWhole {
        words: taken,
        commands,
    }
}

// A piece of words, one after another up to the first refused one; words after that aren't looked at. A command that lies
// whole in the piece and is accepted is taken at once.
pub fn feed(
    own: &mut [u32; state::OWN_CELLS],
    tallies: &mut [u64; state::TALLIES],
    shared: &mut [u32; state::SHARED_CELLS],
    words: &[u32],
) -> Fed
    requires { Given own.old tallies.old shared.old }
    ensures { PieceLeft (feed_of (session_of own.old tallies.old shared.old) words.now) result own.new tallies.new shared.new }
{
    let mut i: usize = 0;
    let mut commands: u64 = 0;
    while i < words.len() {
        let whole = take_commands(own, tallies, shared, words, i);
        commands = commands + whole.commands;
        i = i + whole.words;
        if words.len() <= i {
            break;
        }
        let next = i + 1;
        match step(own, tallies, shared, words[i]) {
            Ok(Progress::Open) => {
                i = next;
            }
            Ok(Progress::Whole) => {
                commands = commands + 1;
                i = next;
            }
            Err(why) => {
                return Fed {
                    taken: WordPosition(i as u64),
                    commands,
                    refusal: Some(why),
                };
            }
        }
    }
    Fed {
        taken: WordPosition(i as u64),
        commands,
        refusal: None,
    }
}
