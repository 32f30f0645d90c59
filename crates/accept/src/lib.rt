// Commands judged by the tests of their lines alone and taken at once: all the words of one that lies whole inside a piece,
// or the last word of an open one. A command that isn't accepted changes nothing here. Each routine is told how many words to
// count, and answers them where it took the command, and 0 where it can't be accepted.
// Kept (design pass 1, speed): fed wait_for_idle, a word takes 22.5 instructions where these answers are Option<u32>, 19.5 by a number.
#![tactic(auto)]

ghost use Rattle.std.specs.Prelude.{◌≡◌, List, [], ◌∷◌, ℕ, ◌+◌, ◌<◌, ◌≤◌, length, drop};
ghost use Rattle.command.specs.Table.{header_of};
ghost use Rattle.command.specs.Commands.{no_effect_line, stored_line};
ghost use Rattle.command.specs.declared.commands.NoEffect.{NoEffect};
ghost use Rattle.command.specs.declared.commands.Stored.{Stored};
ghost use Rattle.command.specs.declared.commands.Command.{Command};
ghost use Rattle.state.specs.Asked.{OwnAsked};
ghost use Rattle.start.specs.Gauge.{RenewAsked};
ghost use Rattle.accept.specs.Whole.{Begun, KeptAt, LineTried, OwnTried, Ready, RoomFor, SharedTried, Tried, every_word, last_word, most_words};

use command::{format, table};
use rules::fits;
use start::{claims, ready};
use state::own::WordPosition;
use state::{own, settings};

// The most words that a command has.
pub const MOST_WORDS: usize = 5;

fn take_domain(
    own: &mut [u32; state::OWN_CELLS],
    words: u32,
    i0: u32,
    j0: u32,
    i1: u32,
    j1: u32,
) -> u32
    requires { RoomFor words own.old }
    ensures { OwnTried (Command.Domain i0 j0 i1 j1) (header_of 0 ∷ i0 ∷ j0 ∷ i1 ∷ j1 ∷ []) words result own.old own.new }
{
    if fits::domain(i0, j0, i1, j1) {
        own::count_words(own, words);
        own::set_domain(own, i0, j0, i1, j1);
        ready::settle(own);
        words
    } else {
        0
    }
}

fn take_start(
    own: &mut [u32; state::OWN_CELLS],
    tallies: &mut [u64; state::TALLIES],
    shared: &[u32; state::SHARED_CELLS],
    words: u32,
    reserved: u32,
) -> u32
    requires { RoomFor words own.old × OwnAsked own.old tallies.old shared.now }
    ensures { (rest : List ℕ) → Tried Command.Start (header_of 1 ∷ reserved ∷ rest) words own.old tallies.old shared.now result own.new tallies.new shared.now }
{
    if reserved != 0 {
        return 0;
    }
    if own[own::READINESS] != 0 {
        return 0;
    }
    own::count_words(own, words);
    claims::count_start(own, tallies, shared);
    words
}

fn take_effectless(own: &mut [u32; state::OWN_CELLS], words: u32, reserved: u32) -> u32
    requires { RoomFor words own.old }
    ensures { (what : NoEffect) → OwnTried (Command.Effectless what) (header_of (no_effect_line what) ∷ reserved ∷ []) words result own.old own.new }
{
    if reserved == 0 {
        own::count_words(own, words);
        words
    } else {
        0
    }
}

fn take_instructions(own: &mut [u32; state::OWN_CELLS], words: u32, base: u32, format: u32) -> u32
    requires { RoomFor words own.old }
    ensures { OwnTried (Command.Store Stored.Instructions base format) (header_of 3 ∷ base ∷ format ∷ []) words result own.old own.new }
{
    if fits::window(base, format, 1) {
        own::count_words(own, words);
        own::set_instructions(own, base, format);
        ready::settle(own); // a start asks for the format
        words
    } else {
        0
    }
}

// A format of constants, to its place.
fn take_constants(
    own: &mut [u32; state::OWN_CELLS],
    shared: &mut [u32; state::SHARED_CELLS],
    words: u32,
    at: usize,
    base: u32,
    format: u32,
) -> u32
    requires { (RoomFor words own.old) × (at < 98) }
    ensures { (what : Stored) → KeptAt what at → SharedTried (Command.Store what base format) (header_of (stored_line what) ∷ base ∷ format ∷ []) words result own.old shared.old own.new shared.new }
{
    if fits::window(base, format, 1) {
        if owners::is_on(own[own::MINE], owners::COMMON) {
            own::count_words(own, words);
            settings::put(shared, at, base, format, 1);
            words
        } else {
            0
        }
    } else {
        0
    }
}

fn take_input(
    own: &mut [u32; state::OWN_CELLS],
    shared: &mut [u32; state::SHARED_CELLS],
    words: u32,
    number: u32,
    base: u32,
    format: u32,
    height: u32,
) -> u32
    requires { RoomFor words own.old }
    ensures { SharedTried (Command.Input number base format height) (header_of 4 ∷ number ∷ base ∷ format ∷ height ∷ []) words result own.old shared.old own.new shared.new }
{
    if fits::input(number, base, format, height) {
        if owners::is_on(own[own::MINE], number) {
            own::count_words(own, words);
            settings::put(
                shared,
                settings::INPUTS + 4 * number as usize,
                base,
                format,
                height,
            );
            words
        } else {
            0
        }
    } else {
        0
    }
}

fn take_output(
    own: &mut [u32; state::OWN_CELLS],
    shared: &mut [u32; state::SHARED_CELLS],
    words: u32,
    number: u32,
    base: u32,
    format: u32,
    height: u32,
) -> u32
    requires { RoomFor words own.old × RenewAsked own.old shared.old }
    ensures { SharedTried (Command.Output number base format height) (header_of 5 ∷ number ∷ base ∷ format ∷ height ∷ []) words result own.old shared.old own.new shared.new }
{
    if fits::output(number, base, format, height) {
        if owners::is_on(own[own::MINE], owners::FIRST_OUTPUT + number) {
            own::count_words(own, words);
            settings::put(
                shared,
                settings::OUTPUTS + 4 * number as usize,
                base,
                format,
                height,
            );
            let window = format::window_of(base, format, height).unwrap();
            own::set_window(own, number, window.step, window.span);
            ready::renew(own, shared);
            words
        } else {
            0
        }
    } else {
        0
    }
}

fn take_conditional(
    own: &mut [u32; state::OWN_CELLS],
    shared: &mut [u32; state::SHARED_CELLS],
    words: u32,
    base: u32,
    format: u32,
    height: u32,
) -> u32
    requires { RoomFor words own.old }
    ensures { SharedTried (Command.Conditional base format height) (header_of 6 ∷ base ∷ format ∷ height ∷ []) words result own.old shared.old own.new shared.new }
{
    if fits::window(base, format, height) {
        if owners::is_on(own[own::MINE], owners::COMMON) {
            own::count_words(own, words);
            settings::put(shared, settings::CONDITIONAL, base, format, height);
            words
        } else {
            0
        }
    } else {
        0
    }
}

fn take_mask(
    own: &mut [u32; state::OWN_CELLS],
    shared: &mut [u32; state::SHARED_CELLS],
    words: u32,
    mask: u32,
) -> u32
    requires { RoomFor words own.old × RenewAsked own.old shared.old }
    ensures { SharedTried (Command.OutputMask mask) (header_of 18 ∷ mask ∷ []) words result own.old shared.old own.new shared.new }
{
    if mask < 65536 {
        let own_bits = owners::blended(own[own::MINE], mask, shared[settings::MASK]);
        own::count_words(own, words);
        shared[settings::MASK] = own_bits;
        ready::renew(own, shared); // the mask tells which outputs count
        words
    } else {
        0
    }
}

fn take_conditional_mask(
    own: &mut [u32; state::OWN_CELLS],
    shared: &mut [u32; state::SHARED_CELLS],
    words: u32,
    mask: u32,
) -> u32
    requires { RoomFor words own.old }
    ensures { SharedTried (Command.ConditionalMask mask) (header_of 19 ∷ mask ∷ []) words result own.old shared.old own.new shared.new }
{
    if mask < 2 {
        if owners::is_on(own[own::MINE], owners::COMMON) {
            own::count_words(own, words);
            shared[settings::CONDITIONAL_MASK_SET] = 1;
            shared[settings::CONDITIONAL_MASK] = mask;
            words
        } else {
            0
        }
    } else {
        0
    }
}

fn take_test(
    own: &mut [u32; state::OWN_CELLS],
    shared: &mut [u32; state::SHARED_CELLS],
    words: u32,
    test: u32,
) -> u32
    requires { RoomFor words own.old }
    ensures { SharedTried (Command.Test test) (header_of 20 ∷ test ∷ []) words result own.old shared.old own.new shared.new }
{
    if test < 8 {
        if owners::is_on(own[own::MINE], owners::COMMON) {
            own::count_words(own, words);
            shared[settings::TEST_SET] = 1;
            shared[settings::TEST] = test;
            words
        } else {
            0
        }
    } else {
        0
    }
}

// The command of a line, with its parameters in the first of the four words; the lines that aren't named have no effect.
fn take_line(
    own: &mut [u32; state::OWN_CELLS],
    tallies: &mut [u64; state::TALLIES],
    shared: &mut [u32; state::SHARED_CELLS],
    line: u32,
    p0: u32,
    p1: u32,
    p2: u32,
    p3: u32,
) -> u32
    requires { (line < 21) × (RoomFor most_words own.old × OwnAsked own.old tallies.old shared.old) }
    ensures { LineTried line p0 p1 p2 p3 every_word own.old tallies.old shared.old result own.new tallies.new shared.new }
{
    match line {
        table::SET_DOMAIN => take_domain(own, 5, p0, p1, p2, p3),
        table::START_PROGRAM => take_start(own, tallies, shared, 2, p0),
        table::SET_INST_FMT => take_instructions(own, 3, p0, p1),
        table::SET_INP_FMT => take_input(own, shared, 5, p0, p1, p2, p3),
        table::SET_OUT_FMT => take_output(own, shared, 5, p0, p1, p2, p3),
        table::SET_COND_OUT_FMT => take_conditional(own, shared, 4, p0, p1, p2),
        table::SET_CONSTF_FMT => take_constants(own, shared, 3, settings::FLOATS, p0, p1),
        table::SET_CONSTI_FMT => take_constants(own, shared, 3, settings::INTEGERS, p0, p1),
        table::SET_CONSTB_FMT => take_constants(own, shared, 3, settings::BOOLEANS, p0, p1),
        table::SET_OUT_MASK => take_mask(own, shared, 2, p0),
        table::SET_COND_OUT_MASK => take_conditional_mask(own, shared, 2, p0),
        table::SET_COND_TEST => take_test(own, shared, 2, p0),
        _ => take_effectless(own, 2, p0),
    }
}

// The same where all words but the last were counted before. Each of the two has its numbers of words as constants: looked up
// in a table, they would hold up the next word.
pub fn take_last(
    own: &mut [u32; state::OWN_CELLS],
    tallies: &mut [u64; state::TALLIES],
    shared: &mut [u32; state::SHARED_CELLS],
    line: u32,
    p0: u32,
    p1: u32,
    p2: u32,
    p3: u32,
) -> u32
    requires { (line < 21) × (RoomFor 1 own.old × OwnAsked own.old tallies.old shared.old) }
    ensures { LineTried line p0 p1 p2 p3 last_word own.old tallies.old shared.old result own.new tallies.new shared.new }
{
    match line {
        table::SET_DOMAIN => take_domain(own, 1, p0, p1, p2, p3),
        table::START_PROGRAM => take_start(own, tallies, shared, 1, p0),
        table::SET_INST_FMT => take_instructions(own, 1, p0, p1),
        table::SET_INP_FMT => take_input(own, shared, 1, p0, p1, p2, p3),
        table::SET_OUT_FMT => take_output(own, shared, 1, p0, p1, p2, p3),
        table::SET_COND_OUT_FMT => take_conditional(own, shared, 1, p0, p1, p2),
        table::SET_CONSTF_FMT => take_constants(own, shared, 1, settings::FLOATS, p0, p1),
        table::SET_CONSTI_FMT => take_constants(own, shared, 1, settings::INTEGERS, p0, p1),
        table::SET_CONSTB_FMT => take_constants(own, shared, 1, settings::BOOLEANS, p0, p1),
        table::SET_OUT_MASK => take_mask(own, shared, 1, p0),
        table::SET_COND_OUT_MASK => take_conditional_mask(own, shared, 1, p0),
        table::SET_COND_TEST => take_test(own, shared, 1, p0),
        _ => take_effectless(own, 1, p0),
    }
}

// The command that the words from a place on begin with, where the session is ready for any command and the longest would fit
// the piece.
pub fn take(
    own: &mut [u32; state::OWN_CELLS],
    tallies: &mut [u64; state::TALLIES],
    shared: &mut [u32; state::SHARED_CELLS],
    words: &[u32],
    from: WordPosition,
) -> u32
    requires { Ready own.old tallies.old shared.old × (from.0 + most_words ≤ length words.now) }
    ensures { Begun (drop from.0 words.now) own.old tallies.old shared.old result own.new tallies.new shared.new }
{
    let at = from.0 as usize;
    match table::line_of(words[at]) {
        None => 0,
        Some(line) => take_line(
            own,
            tallies,
            shared,
            line,
            words[at + 1],
            words[at + 2],
            words[at + 3],
            words[at + 4],
        ),
    }
}
