// The bytes of a log, one by one and in pieces.
ghost use Rattle.std.specs.Prelude.{◌≡◌, [], ◌∷◌, ◌+◌, ◌*◌, ◌<◌, ◌≤◌, length, drop};
ghost use Rattle.station_log.specs.Bytes.{byte_step, open_step};
ghost use Rattle.station_log.specs.Feed.{replay_of};
ghost use Rattle.replay.specs.Cells.{ReplayGiven, replay_in};
ghost use Rattle.station_log.specs.Asked.{Became, Begins, ByteLeft, batch, Gathered, Grew, OpenAsked, PieceLeft, RecordsLeft, WordsAsked, WordsLeft, word_at};
ghost use Rattle.session.specs.Answers.{begun_status};
ghost use Rattle.replay.specs.Own.{reply_of};

use refusal::Refusal;
use replay::{bytes, own};
use session::stream;

// Words of records that are fed to the session in one piece: so many that a piece's beginning and end cost little beside them.
const BATCH: usize = 1024;

// Bytes of a record: its kind and four of its number.
const RECORD: usize = 5;

// The kind byte of a record that is a word.
const WORD_KIND: u8 = 1;

// A place in a log, in bytes.
#[derive(Drop)]
pub struct BytePosition(pub u64);

// Kept (design pass 5, C interface): C lends a replay's five arrays one by one, here and in each function below.
// Begins a replay that has read nothing, over a new session of an edition; 3 where it is neither 1 nor 2, and nothing is touched then.
pub fn begin(
    log: &mut [u32; replay::LOG_CELLS],
    marks: &mut [u64; replay::MARKS],
    own: &mut [u32; state::OWN_CELLS],
    tallies: &mut [u64; state::TALLIES],
    shared: &mut [u32; state::SHARED_CELLS],
    edition: u32,
) -> Result<(), Refusal>
    ensures { Begins edition (begun_status result) log.old marks.old own.old tallies.old shared.old log.new marks.new own.new tallies.new shared.new }
{
    stream::begin(own, tallies, shared, edition)?;
    *log = [0; replay::LOG_CELLS];
    *marks = [0; replay::MARKS];
    Ok(())
}

// Words of records, fed to the session in one piece. A refused one stops the session, so that later ones add nothing.
fn take_words(
    log: &mut [u32; replay::LOG_CELLS],
    own: &mut [u32; state::OWN_CELLS],
    tallies: &mut [u64; state::TALLIES],
    shared: &mut [u32; state::SHARED_CELLS],
    words: &[u32],
)
    requires { WordsAsked log.old own.old tallies.old shared.old }
    ensures { WordsLeft words.now log.old own.old tallies.old shared.old log.new own.new tallies.new shared.new }
{
    let piece = stream::feed(own, tallies, shared, words);
    own::close(log);
    let first = piece.refusal;
    if let Some(why) = first {
        own::note(log, u32::from(why))
    }
}

// The word of a record that was read byte by byte.
// Kept (design pass 2, no plainer): a session answers one word and a piece of words by two functions with answers of two types.
fn take_word(
    log: &mut [u32; replay::LOG_CELLS],
    own: &mut [u32; state::OWN_CELLS],
    tallies: &mut [u64; state::TALLIES],
    shared: &mut [u32; state::SHARED_CELLS],
    word: u32,
)
    requires { WordsAsked log.old own.old tallies.old shared.old }
    ensures { WordsLeft (word ∷ []) log.old own.old tallies.old shared.old log.new own.new tallies.new shared.new }
{
    let answer = stream::step(own, tallies, shared, word);
    own::close(log);
    if let Err(why) = answer {
        own::note(log, u32::from(why))
    }
}

// A byte of an open record; the fifth completes it.
fn open_byte(
    log: &mut [u32; replay::LOG_CELLS],
    marks: &mut [u64; replay::MARKS],
    own: &mut [u32; state::OWN_CELLS],
    tallies: &mut [u64; state::TALLIES],
    shared: &mut [u32; state::SHARED_CELLS],
    byte: u32,
) -> Result<(), Refusal>
    requires { OpenAsked log.old marks.old own.old tallies.old shared.old byte }
    ensures { Became (open_step (replay_in log.old marks.old own.old tallies.old shared.old) byte) (reply_of result) log.new marks.new own.new tallies.new shared.new }
{
    let count = log[own::COUNT];
    if count < 4 {
        own::add(log, count, byte);
        return Ok(());
    }
    let value = bytes::number(log[own::LOW], log[own::SECOND], log[own::THIRD], byte);
    if log[own::KIND] == 1 {
        take_word(log, own, tallies, shared, value);
        return Ok(());
    }
    bytes::midnight(log, marks, tallies, value)
}

// One byte. A replay that was stopped answers the same number again.
fn read_byte(
    log: &mut [u32; replay::LOG_CELLS],
    marks: &mut [u64; replay::MARKS],
    own: &mut [u32; state::OWN_CELLS],
    tallies: &mut [u64; state::TALLIES],
    shared: &mut [u32; state::SHARED_CELLS],
    byte: u32,
) -> Result<(), Refusal>
    requires { ReplayGiven log.old marks.old own.old tallies.old shared.old × (byte < 256) }
    ensures { Became (byte_step (replay_in log.old marks.old own.old tallies.old shared.old) byte) (reply_of result) log.new marks.new own.new tallies.new shared.new }
{
    let by = log[own::STOPPED_BY];
    if by != 0 {
        return Err(refusal::with_number(by));
    }
    if log[own::COUNT] == 0 {
        return bytes::kind_byte(log, byte);
    }
    open_byte(log, marks, own, tallies, shared, byte)
}

// The word of the record at a place.
fn word_at(bytes: &[u8], i: usize) -> u32
    requires { i + 5 ≤ length bytes.now }
    ensures { result ≡ word_at bytes.now i }
{
    u32::from_le_bytes([bytes[i + 1], bytes[i + 2], bytes[i + 3], bytes[i + 4]])
}

// How many records lie whole in so many bytes, but no more than are gathered at once. With fewer a piece would take longer, and
// its answer would be the same: so the contract has only the two bounds.
fn records_in(bytes: usize) -> usize
    ensures { (5 * result ≤ bytes) × (result ≤ batch) }
{
    (bytes / RECORD).min(BATCH)
}

// The words of the records of kind 1 that lie whole in a piece from a place on, one after the other, as many as there is room
// for, before the first record of another kind; and how many they are.
fn gather(bytes: &[u8], at: usize, words: &mut [u32]) -> usize
    requires { (at ≤ length bytes.now) × (length words.old ≡ batch) }
    ensures gathered { Gathered (drop at bytes.now) result words.new }
    ensures room { length words.new ≡ batch }
{
    let most = records_in(bytes.len() - at);
    for n in 0..most {
        let i = at + RECORD * n;
        if bytes[i] != WORD_KIND {
            return n;
        }
        words[n] = word_at(bytes, i);
    }
    most
}

// Records of words that lie whole in a piece from a place on are read at once; how many they were. None where a record is
// open or the replay stopped.
fn take_records(
    log: &mut [u32; replay::LOG_CELLS],
    own: &mut [u32; state::OWN_CELLS],
    tallies: &mut [u64; state::TALLIES],
    shared: &mut [u32; state::SHARED_CELLS],
    bytes: &[u8],
    at: usize,
    words: &mut [u32],
) -> usize
    requires { WordsAsked log.old own.old tallies.old shared.old × ((at ≤ length bytes.now) × (length words.old ≡ batch)) }
    ensures read { RecordsLeft (drop at bytes.now) log.old own.old tallies.old shared.old result log.new own.new tallies.new shared.new }
    ensures room { length words.new ≡ batch }
{
    if bytes.len() - at < RECORD {
        return 0;
    }
    if log[own::STOPPED_BY] != 0 || log[own::COUNT] != 0 {
        return 0;
    }
    let n = gather(bytes, at, words);
    if 0 < n {
        take_words(log, own, tallies, shared, &words[..n]);
    }
    n
}

// Whether a byte only adds to a record, as its kind or inside its number; then it is added. The session isn't looked at, so that
// a log that comes byte by byte is soon read.
fn grows(log: &mut [u32; replay::LOG_CELLS], byte: u32) -> bool
    ensures { Grew byte log.old result log.new }
{
    if log[own::STOPPED_BY] != 0 {
        return false;
    }
    let count = log[own::COUNT];
    if 3 < count {
        return false;
    }
    if 0 < count {
        own::add(log, count, byte);
        return true;
    }
    if bytes::is_kind(byte) {
        own::open(log, byte);
        return true;
    }
    false
}

// One byte by itself: 18 or 19 where it isn't taken. Four bytes of five only add to a record and touch the replay's own numbers, so
// that is asked first.
pub fn take_byte(
    log: &mut [u32; replay::LOG_CELLS],
    marks: &mut [u64; replay::MARKS],
    own: &mut [u32; state::OWN_CELLS],
    tallies: &mut [u64; state::TALLIES],
    shared: &mut [u32; state::SHARED_CELLS],
    byte: u8,
) -> Result<(), Refusal>
    requires { ReplayGiven log.old marks.old own.old tallies.old shared.old }
    ensures { ByteLeft (replay_of (replay_in log.old marks.old own.old tallies.old shared.old) (byte ∷ [])) (begun_status result) log.new marks.new own.new tallies.new shared.new }
{
    let number = u32::from(byte);
    if grows(log, number) {
        return Ok(());
    }
    read_byte(log, marks, own, tallies, shared, number)
}

// What a piece is answered: the bytes taken, which is also the place of the refused byte if there is one; and the refusal.
#[derive(Drop)]
pub struct Fed {
    pub taken: BytePosition,
    pub refusal: Option<Refusal>,
}

// A piece of bytes, one after another up to the first refused one; bytes after that aren't looked at.
pub fn feed(
    log: &mut [u32; replay::LOG_CELLS],
    marks: &mut [u64; replay::MARKS],
    own: &mut [u32; state::OWN_CELLS],
    tallies: &mut [u64; state::TALLIES],
    shared: &mut [u32; state::SHARED_CELLS],
    bytes: &[u8],
) -> Fed
    requires { ReplayGiven log.old marks.old own.old tallies.old shared.old }
    ensures { PieceLeft (replay_of (replay_in log.old marks.old own.old tallies.old shared.old) bytes.now) result log.new marks.new own.new tallies.new shared.new }
{
    // Kept (design pass 3, no plainer): a step takes one byte or a whole row of records.
    let mut i: usize = 0;
    let mut words: [u32; BATCH] = [0; BATCH];
    while i < bytes.len() {
        let records = take_records(log, own, tallies, shared, bytes, i, &mut words);
        if 0 < records {
            i += RECORD * records;
            continue;
        }
        match read_byte(log, marks, own, tallies, shared, u32::from(bytes[i])) {
            Ok(()) => i += 1,
            Err(why) => {
                return Fed {
                    taken: BytePosition(i as u64),
                    refusal: Some(why),
                };
            }
        }
    }
    Fed {
        taken: BytePosition(i as u64),
        refusal: None,
    }
}
