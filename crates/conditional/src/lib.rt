// Conditional output tests, request 12: a value compared with what the conditional buffer holds at a pair, and at every pair of a
// domain. The unit only reads a session's settings, stopped or not. It refuses in the order 7, 3, 5, 10, 11.
#![tactic(auto)]

ghost use Rattle.std.specs.Prelude.{◌≡◌, length};
ghost use Rattle.state.specs.Cells.{shared_of};
ghost use Rattle.address.specs.Address.{layout_of};
ghost use Rattle.conditional.specs.Asked.{DomainAsked, SurveyAsked};
ghost use Rattle.conditional.specs.Conditional.{pair_of, test_of, SurveyedIn, SurveyedBy, told_tested, told_surveyed};

use address::Translated;
use layout::{ByteAddress, Judged, Layout};
use memory::place;
use memory::place::Place;
use refusal::Refusal;
use survey::{held, rows};

// The code of UINT16_1 and the bytes of its elements.
const UINT16_1: u32 = 0;

const SIZE: u32 = 2;

// What a test of one pair answers.
#[derive(Drop)]
pub enum Tested {
    Result(bool),
    Refused(Refusal),
}

// What a survey answers: how many pairs pass.
#[derive(Drop)]
pub enum Surveyed {
    Passed(u32),
    Refused(Refusal),
}

fn wide(number: u16) -> u32
    ensures { result ≡ number }
{
    number as u32
}

// The test at a pair of a layout; 3, 6, 10 or 11.
fn pair_of(
    layout: Layout,
    test: u32,
    v: u32,
    x: u32,
    y: u32,
    memory: &[u8],
    first: ByteAddress,
) -> Tested
    requires { layout.size ≡ 2 }
    ensures { told_tested result ≡ pair_of layout test v first.0 memory.now x y }
{
    match place::find(layout, x, y, first, memory.len()) {
        Place::Refused(why) => Tested::Refused(why),
        Place::At(a) => {
            let b = wide(conditions::word_at(memory, a));
            Tested::Result(conditions::passes_test(test, v, b))
        }
    }
}

// A survey of a domain that is inside a layout whose row step and span are known, into a room as long as its pairs are many; 11 where
// memory doesn't hold them all.
fn survey_judged(
    base: u32,
    pitch: u32,
    height: u32,
    tiled: bool,
    step: u32,
    span: u32,
    test: u32,
    v: u32,
    i0: u32,
    j0: u32,
    i1: u32,
    j1: u32,
    memory: &[u8],
    first: u32,
    room: &mut [u8],
) -> Surveyed
    requires { SurveyAsked (layout_of base pitch height 2 tiled) step span i0 j0 i1 j1 (length room.old) }
    ensures { SurveyedIn (layout_of base pitch height 2 tiled) test v first memory.now i0 j0 i1 j1 (told_surveyed result) room.old room.new }
{
    let columns = i1 - i0 + 1;
    let rows = j1 - j0 + 1;
    let stride = step * SIZE;
    if !held::all_held(
        base,
        stride,
        tiled,
        i0,
        j0,
        columns,
        rows,
        span,
        first,
        memory.len(),
    ) {
        return Surveyed::Refused(Refusal::WrongLength);
    }
    let passing = conditions::span_of(test, v);
    Surveyed::Passed(rows::rows(
        passing.low,
        passing.top,
        passing.outside,
        base,
        stride,
        tiled,
        i0,
        j0,
        columns,
        rows,
        memory,
        first,
        room,
    ))
}

// A survey of a domain that is inside; 11 where the room isn't as long as the pairs are many, or memory doesn't hold them all. Nothing
// is written before both are asked.
fn survey_inside(
    base: u32,
    pitch: u32,
    height: u32,
    tiled: bool,
    test: u32,
    v: u32,
    i0: u32,
    j0: u32,
    i1: u32,
    j1: u32,
    memory: &[u8],
    first: u32,
    room: &mut [u8],
) -> Surveyed
    requires { DomainAsked (layout_of base pitch height 2 tiled) i0 j0 i1 j1 }
    ensures { SurveyedIn (layout_of base pitch height 2 tiled) test v first memory.now i0 j0 i1 j1 (told_surveyed result) room.old room.new }
{
    let columns = (i1 - i0) as u64 + 1;
    let rows = (j1 - j0) as u64 + 1;
    let count = room.len();
    if count as u64 != rows * columns {
        return Surveyed::Refused(Refusal::WrongLength);
    }
    let layout = Layout {
        base: ByteAddress(base),
        pitch,
        height,
        size: SIZE,
        tiled,
    };
    match layout::judge(layout) {
        Judged::Refused(why) => Surveyed::Refused(why),
        Judged::Accepted { step, span } => survey_judged(
            base, pitch, height, tiled, step, span, test, v, i0, j0, i1, j1, memory, first, room,
        ),
    }
}

// A survey of a layout's domain; 5, then 3, 6 or 10, then 11. A domain in order is inside where its last pair is.
fn survey_in(
    base: u32,
    pitch: u32,
    height: u32,
    tiled: bool,
    test: u32,
    v: u32,
    i0: u32,
    j0: u32,
    i1: u32,
    j1: u32,
    memory: &[u8],
    first: u32,
    room: &mut [u8],
) -> Surveyed
    ensures { SurveyedIn (layout_of base pitch height 2 tiled) test v first memory.now i0 j0 i1 j1 (told_surveyed result) room.old room.new }
{
    if i1 < i0 {
        return Surveyed::Refused(Refusal::DomainCrossed);
    }
    if j1 < j0 {
        return Surveyed::Refused(Refusal::DomainCrossed);
    }
    let layout = Layout {
        base: ByteAddress(base),
        pitch,
        height,
        size: SIZE,
        tiled,
    };
    match address::translate(layout, i1, j1) {
        Translated::Refused(why) => Surveyed::Refused(why),
        Translated::At { address: _, run: _ } => survey_inside(
            base, pitch, height, tiled, test, v, i0, j0, i1, j1, memory, first, room,
        ),
    }
}

// The test of one pair with what a session's settings are now. 7 where no conditional buffer or no test is set; 3 for another format than
// UINT16_1; 10 for a pair outside the buffer's window; 11 where memory is too long, ends too high or doesn't hold the whole element.
pub fn test(
    shared: &[u32; state::SHARED_CELLS],
    v: u32,
    x: u32,
    y: u32,
    memory: &[u8],
    first: ByteAddress,
) -> Tested
    ensures { told_tested result ≡ test_of (shared_of shared.now) v first.0 memory.now x y }
{
    let buffer = queries::conditional(shared);
    if !buffer.present {
        return Tested::Refused(Refusal::StartUnset);
    }
    if !queries::has_test(shared) {
        return Tested::Refused(Refusal::StartUnset);
    }
    if command::format::code(buffer.format) != UINT16_1 {
        return Tested::Refused(Refusal::Malformed);
    }
    let layout = Layout {
        base: ByteAddress(buffer.base),
        pitch: command::format::pitch(buffer.format),
        height: buffer.height,
        size: SIZE,
        tiled: command::format::tiled(buffer.format),
    };
    pair_of(layout, queries::test(shared), v, x, y, memory, first)
}

// The tests of all pairs of a domain with one value: a byte 1 or 0 a pair, row by row, into the room, and how many pass. 7 and 3 as for
// one pair; 5 for a domain whose ends are crossed; 10 where a pair is outside; 11 where the room isn't as long as the pairs are many, or
// memory isn't fit or doesn't hold all of them. A refusal touches no byte of the room.
pub fn survey(
    shared: &[u32; state::SHARED_CELLS],
    v: u32,
    i0: u32,
    j0: u32,
    i1: u32,
    j1: u32,
    memory: &[u8],
    first: u32,
    room: &mut [u8],
) -> Surveyed
    ensures { SurveyedBy (shared_of shared.now) v first memory.now i0 j0 i1 j1 (told_surveyed result) room.old room.new }
{
    let buffer = queries::conditional(shared);
    if !buffer.present {
        return Surveyed::Refused(Refusal::StartUnset);
    }
    if !queries::has_test(shared) {
        return Surveyed::Refused(Refusal::StartUnset);
    }
    let base = buffer.base;
    let format = buffer.format;
    let height = buffer.height;
    if command::format::code(format) != UINT16_1 {
        return Surveyed::Refused(Refusal::Malformed);
    }
    let pitch = command::format::pitch(format);
    let tiled = command::format::tiled(format);
    let test = queries::test(shared);
    survey_in(
        base, pitch, height, tiled, test, v, i0, j0, i1, j1, memory, first, room,
    )
}
