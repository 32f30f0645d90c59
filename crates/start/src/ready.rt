// What the settings alone give a start, 0, 7, 8 or 9, kept in a party's own cells: renewed by each command that sets one of the
// settings, so that a start only reads it.
ghost use Rattle.std.specs.Prelude.{◌≡◌, true, [], ◌%◌, ◌^◌, ◌<◌, ◌≤◌};
ghost use Rattle.laws.specs.Choice.{pick};
ghost use Rattle.command.specs.Format.{channels_of};
ghost use Rattle.state.specs.Cells.{buffer_at, party_of, party_cells, shared_of};
ghost use Rattle.state.specs.Effects.{renewed, window_from};
ghost use Rattle.state.specs.Seen.{seen_outputs};
ghost use Rattle.state.specs.Start.{unmasked};
ghost use Rattle.start.specs.Gauge.{RenewAsked, settled};
ghost use Rattle.start.specs.Windows.{channels_by, channels_in, columns_by, count_by, counts_by, credit_by, each_apart, extent_left, first_of, keeps_apart, muted, ones_in, output_by, rows_by, some_set, spans_apart};

use command::format;
use state::{edition, own, settings};

// The most columns and the most rows that a window has.
pub const MOST_EXTENT: u32 = 4096;

// What a start gets where nothing is set: the number of refusal::Refusal::StartUnset.
// Kept (design pass 1, C interface): this and the numbers of `first_of` are what the cell own::READINESS holds, an array that C keeps.
pub const UNSET: u32 = 7;

// An output as a start sees it: whether it is set, whether it counts, and its window.
#[derive(Clone, Copy)]
pub struct Output {
    pub set: bool,
    pub counts: bool,
    pub base: u32,
    pub step: u32,
    pub height: u32,
    pub span: u32,
}

// The bits of the channels that a format code has, four for each code from the lowest on: one, four, one, two and four of them, and
// none of the codes 5 to 7.
const CHANNELS: u32 = 0xF31F1;

const LAST_CODE: u32 = 7;

// How many ones a number of four bits has, a digit of four bits for each from the lowest on.
const ONES: u64 = 0x4332322132212110;

// The mask's bits for the channels that a format code has. `bits` are the mask's from the output's own on, so those of later
// outputs stand above. The codes of a stream can't be foretold, so no branch is taken on them.
fn channel_bits(bits: u32, code: u32) -> u32
    ensures { result ≡ bits % 2 ^ channels_of code }
{
    if LAST_CODE < code {
        return 0;
    }
    bits & ((CHANNELS >> (4 * code)) % 16)
}

// Whether the mask has a bit set for a channel of the format: the output isn't silent.
fn is_unmasked(bits: u32, format: u32) -> bool
    ensures { result ≡ unmasked bits 0 format }
{
    channel_bits(bits, format::code(format)) != 0
}

// Whether the output counts: it is set and isn't silent. Here and below tests are joined by `&` and `|`, which take no branch, as a
// chain of `&&` would at each of its ways.
pub fn is_counted(bits: u32, flag: u32, format: u32) -> bool
    ensures { result ≡ counts_by bits flag format }
{
    (flag == 1) & is_unmasked(bits, format)
}

// A flag, where it is one's own to see.
fn shown(owned: bool, flag: u32) -> u32
    ensures { result ≡ pick owned flag 0 }
{
    if owned { flag } else { 0 }
}

// The number of ones among four bits: a digit is looked up, so that no branch is taken on them.
fn ones(four: u32) -> u32
    requires { four < 16 }
    ensures value { result ≡ ones_in four }
    ensures most { result ≤ 4 }
{
    ((ONES >> (4 * four)) % 16) as u32
}

// The unmasked channels of an output, none of one that isn't set.
fn channels(bits: u32, flag: u32, format: u32) -> u32
    ensures value { result ≡ channels_by bits flag format }
    ensures most { result ≤ 4 }
{
    if flag == 1 {
        ones(channel_bits(bits, format::code(format)))
    } else {
        0
    }
}

// The unmasked channels of an output that is the party's own, none of another's.
fn own_channels(owned: bool, bits: u32, flag: u32, format: u32) -> u32
    ensures value { result ≡ channels_by bits (pick owned flag 0) format }
    ensures most { result ≤ 4 }
{
    channels(bits, shown(owned, flag), format)
}

// The output whose cells begin at a place, with the row step and span that are kept of it; another party's is as if it weren't set.
fn output_at(
    owned: bool,
    bits: u32,
    shared: &[u32; state::SHARED_CELLS],
    at: usize,
    step: u32,
    span: u32,
) -> Output
    requires { at < 98 }
    ensures { result ≡ output_by bits (muted owned (buffer_at shared.now at)) (window_from step span) }
{
    let flag = shown(owned, shared[at]);
    let counts = is_counted(bits, flag, shared[at + 2]);
    Output {
        set: flag == 1,
        counts,
        base: shared[at + 1],
        step,
        height: shared[at + 3],
        span,
    }
}

// Whether two spans share no byte. A span may end where 32 bits do, so the ends are in 64.
fn spans_apart(base: u32, span: u32, other: u32, extent: u32) -> bool
    ensures { result ≡ spans_apart base span other extent }
{
    let end = base as u64 + span as u64;
    let other_end = other as u64 + extent as u64;
    (end <= other as u64) | (other_end <= base as u64)
}

// Whether one of two outputs doesn't count, or their spans share no byte.
fn keeps_apart(a: Output, b: Output) -> bool
    ensures { result ≡ keeps_apart a b }
{
    if a.counts & b.counts {
        spans_apart(a.base, a.span, b.base, b.span)
    } else {
        true
    }
}

// Whether some output is set: silent ones too.
fn some_set(a: Output, b: Output, c: Output, d: Output) -> bool
    ensures { result ≡ some_set a b c d }
{
    a.set | b.set | c.set | d.set
}

// Whether no two outputs that count share a byte.
fn each_apart(a: Output, b: Output, c: Output, d: Output) -> bool
    ensures { result ≡ each_apart a b c d }
{
    let second = keeps_apart(b, a);
    let third = keeps_apart(c, a) & keeps_apart(c, b);
    let fourth = keeps_apart(d, a) & keeps_apart(d, b) & keeps_apart(d, c);
    second & third & fourth
}

// What an output leaves a domain of its row step or height: all that a window may have where the output doesn't count.
fn extent_left(counts: bool, extent: u32) -> u32
    ensures { result ≡ extent_left counts extent }
{
    if counts { extent } else { MOST_EXTENT }
}

// The columns that the outputs leave a domain.
fn columns(a: Output, b: Output, c: Output, d: Output) -> u32
    ensures { result ≡ columns_by a b c d }
{
    let last = extent_left(d.counts, d.step).min(MOST_EXTENT);
    let later = extent_left(c.counts, c.step).min(last);
    let latest = extent_left(b.counts, b.step).min(later);
    extent_left(a.counts, a.step).min(latest)
}

// The rows that they leave it.
fn rows(a: Output, b: Output, c: Output, d: Output) -> u32
    ensures { result ≡ rows_by a b c d }
{
    let last = extent_left(d.counts, d.height).min(MOST_EXTENT);
    let later = extent_left(c.counts, c.height).min(last);
    let latest = extent_left(b.counts, b.height).min(later);
    extent_left(a.counts, a.height).min(latest)
}

// The number of outputs that count.
fn by_output(a: Output, b: Output, c: Output, d: Output) -> u32
    ensures { result ≡ count_by a b c d }
{
    u32::from(a.counts) + u32::from(b.counts) + u32::from(c.counts) + u32::from(d.counts)
}

// The number of the unmasked channels of the outputs that a party owns.
fn by_channel(mine: u32, shared: &[u32; state::SHARED_CELLS]) -> u32
    ensures { result ≡ channels_in (shared_of shared.now).mask (seen_outputs mine (shared_of shared.now).outputs) }
{
    let mask = shared[settings::MASK];
    let second = mask / 16;
    let third = mask / 256;
    let fourth = mask / 4096;
    let a = own_channels(
        owners::is_on(mine, 16),
        mask,
        shared[settings::OUTPUT_0],
        shared[settings::OUTPUT_0 + 2],
    );
    let b = own_channels(
        owners::is_on(mine, 17),
        second,
        shared[settings::OUTPUT_1],
        shared[settings::OUTPUT_1 + 2],
    );
    let c = own_channels(
        owners::is_on(mine, 18),
        third,
        shared[settings::OUTPUT_2],
        shared[settings::OUTPUT_2 + 2],
    );
    let d = own_channels(
        owners::is_on(mine, 19),
        fourth,
        shared[settings::OUTPUT_3],
        shared[settings::OUTPUT_3 + 2],
    );
    a + b + c + d
}

// What a pair is credited, and so claims. The outputs are those of the shared settings that the party owns.
fn credit(
    edition: u32,
    mine: u32,
    a: Output,
    b: Output,
    c: Output,
    d: Output,
    shared: &[u32; state::SHARED_CELLS],
) -> u32
    ensures { result ≡ credit_by a b c d edition (channels_in (shared_of shared.now).mask (seen_outputs mine (shared_of shared.now).outputs)) }
{
    if edition == edition::BY_CHANNEL {
        by_channel(mine, shared)
    } else {
        by_output(a, b, c, d)
    }
}

// The first of 7, 8 and 9 that is given, 0 where none is.
fn first_of(complete: bool, covered: bool, disjoint: bool) -> u32
    ensures { result ≡ first_of complete covered disjoint }
{
    if !complete {
        return 7;
    }
    if !covered {
        return 8;
    }
    if disjoint { 0 } else { 9 }
}

// The number that the settings alone give a start, by the gauge that is kept: after a command that set the domain or the
// instruction format.
pub fn settle(own: &mut [u32; state::OWN_CELLS])
    ensures { own.new ≡ party_cells (settled (party_of own.old [])) }
{
    let complete = (own[own::DOMAIN] == 1)
        & ((own[own::INSTRUCTIONS] == 1) & (own[own::SOME] == 1));
    let covered = (own[own::DOMAIN_I1] < own[own::COLUMNS])
        & (own[own::DOMAIN_J1] < own[own::ROWS]);
    let number = first_of(complete, covered, own[own::APART] == 1);
    own::set_readiness(own, number);
}

// The gauge and the number: after a command that set an output, whose window is kept by then, or the mask.
pub fn renew(own: &mut [u32; state::OWN_CELLS], shared: &[u32; state::SHARED_CELLS])
    requires { RenewAsked own.old shared.now }
    ensures { own.new ≡ party_cells (renewed (shared_of shared.now) (party_of own.old [])) }
{
    let mine = own[own::MINE];
    let edition = own[own::EDITION];
    let mask = shared[settings::MASK];
    let a = output_at(
        owners::is_on(mine, 16),
        mask,
        shared,
        settings::OUTPUT_0,
        own[own::STEP_0],
        own[own::SPAN_0],
    );
    let b = output_at(
        owners::is_on(mine, 17),
        mask / 16,
        shared,
        settings::OUTPUT_1,
        own[own::STEP_1],
        own[own::SPAN_1],
    );
    let c = output_at(
        owners::is_on(mine, 18),
        mask / 256,
        shared,
        settings::OUTPUT_2,
        own[own::STEP_2],
        own[own::SPAN_2],
    );
    let d = output_at(
        owners::is_on(mine, 19),
        mask / 4096,
        shared,
        settings::OUTPUT_3,
        own[own::STEP_3],
        own[own::SPAN_3],
    );
    let some = u32::from(some_set(a, b, c, d));
    let apart = u32::from(each_apart(a, b, c, d));
    own::set_gauge(
        own,
        some,
        columns(a, b, c, d),
        rows(a, b, c, d),
        apart,
        credit(edition, mine, a, b, c, d, shared),
    );
    settle(own);
}
