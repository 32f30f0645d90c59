// Writes commands, reads their words by a new session, and prints how many came back as they were and how many differed. Its stdout
// file holds what it must print; every line ends in '0 differed'.
#![tactic(auto)]

use command::commands::{Command, NoEffect, Stored};
use refusal::Refusal;
use rules::writer;
use session::stream;
use state::edition;
use std::io;
use worked::streams::whole_stream;
use worked::tally::Tally;

// The last word's answer.
fn last_answer(words: &[u32]) -> Result<Option<Command>, Refusal> {
    let mut own: [u32; state::OWN_CELLS] = [0; state::OWN_CELLS];
    let mut tallies: [u64; state::TALLIES] = [0; state::TALLIES];
    let mut shared: [u32; state::SHARED_CELLS] = [0; state::SHARED_CELLS];
    stream::begin(&mut own, &mut tallies, &mut shared, edition::BY_OUTPUT)?;
    let mut answer = Ok(None);
    for word in words {
        answer = stream::word(&mut own, &mut tallies, &mut shared, *word);
    }
    answer
}

fn same_five(a: &[u32; 5], b: &[u32; 5]) -> bool {
    let front = a[0] == b[0] && (a[1] == b[1] && a[2] == b[2]);
    front && (a[3] == b[3] && a[4] == b[4])
}

// Whether a command writes these words.
fn writes(command: Command, words: &[u32; 5]) -> bool {
    let mut room: [u32; 5] = [0; 5];
    writer::write(command, &mut room).is_ok() && same_five(&room, words)
}

// The answer to the last of the room's first words; still open where the room has fewer.
fn answer_to(room: &[u32], count: usize) -> Result<Option<Command>, Refusal> {
    if count > room.len() {
        return Ok(None);
    }
    last_answer(&room[..count])
}

// Whether a command, written and read by a new session, is answered by a command that writes the same.
fn back(command: Command) -> bool {
    let mut room: [u32; 5] = [0; 5];
    let Ok(count) = writer::write(command, &mut room) else {
        return false;
    };
    let Ok(Some(found)) = answer_to(&room, count) else {
        return false;
    };
    writes(found, &room)
}

// Each command but a start, which a new session refuses.
fn settings_back() -> Tally {
    let t = Tally::new()
        .with(back(Command::Domain(0, 0, 0, 0)))
        .with(back(Command::Domain(1, 2, 4095, 4095)));
    let t = t
        .with(back(Command::Store(Stored::Instructions, 0x1000, 0x4000010)))
        .with(back(Command::Store(Stored::Floats, 0x800, 0x2000FFC)));
    let t = t
        .with(back(Command::Store(Stored::Integers, 0, 0x3030040)))
        .with(back(Command::Store(Stored::Booleans, 0x80000000, 0x40)));
    let t = t
        .with(back(Command::Input(0, 0, 0x2020040, 4096)))
        .with(back(Command::Input(15, 0xFFFFF800, 0x2000008, 64)));
    let t = t
        .with(back(Command::Output(0, 0x800, 0x2010064, 0x12)))
        .with(back(Command::Output(3, 0, 0x4030010, 1)));
    let t = t
        .with(back(Command::Conditional(0x800, 0x1000040, 7)))
        .with(back(Command::Conditional(0, 0x40, 4096)));
    let t = t
        .with(back(Command::OutputMask(0)))
        .with(back(Command::OutputMask(0xFFFF)));
    let t = t
        .with(back(Command::ConditionalMask(0)))
        .with(back(Command::ConditionalMask(1)));
    t.with(back(Command::Test(0))).with(back(Command::Test(7)))
}

fn effectless_back() -> Tally {
    let t = Tally::new()
        .with(back(Command::Effectless(NoEffect::Wait)))
        .with(back(Command::Effectless(NoEffect::InvalidateInstructions)));
    let t = t
        .with(back(Command::Effectless(NoEffect::InvalidateFloats)))
        .with(back(Command::Effectless(NoEffect::InvalidateIntegers)));
    let t = t
        .with(back(Command::Effectless(NoEffect::InvalidateBooleans)))
        .with(back(Command::Effectless(NoEffect::InvalidateConditional)));
    let t = t
        .with(back(Command::Effectless(NoEffect::InvalidateInputs)))
        .with(back(Command::Effectless(NoEffect::FlushOutputs)));
    t.with(back(Command::Effectless(NoEffect::FlushConditional)))
}

// A start's words stand at the whole stream's end, where they pass, and the command they complete writes them again.
fn start_back() -> Tally {
    let words = whole_stream();
    let start: [u32; 5] = [words[13], words[14], 0, 0, 0];
    let t = Tally::new().with(writes(Command::Start, &start));
    let Ok(Some(found)) = last_answer(&words) else {
        return t.with(false);
    };
    t.with(writes(found, &start))
}

fn main(rt: HostRuntime) -> io::Result<()> {
    settings_back()
        .and(effectless_back())
        .and(start_back())
        .print(&rt, "commands written and read again")
}
