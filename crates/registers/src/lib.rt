// Registers of four f32 channels (request 11, "Kill test on float registers"): which registers of a list kill, and the maximum and
// the choice, channel by channel. Floats are compared as IEEE 754 does, so that minus zero and a NaN are not less than zero. The maximum
// and the choice are of bit patterns, so that what is answered is one of the operands bit for bit, a NaN's payload too. Nothing is
// refused here: crates/kill judges the write mask and the list.
#![tactic(auto)]

ghost use Rattle.std.specs.Prelude.{◌≡◌, ◌+◌, ◌*◌, ◌≤◌, ◌/◌, eqb, length};
ghost use Rattle.laws.specs.Choice.{◌and◌};
ghost use Rattle.registers.specs.Registers.{float, less_than_zero, at_least_zero, killed_by, maximum_of, choice_of, each_of2, each_of3, channel_count, most_channels, masked_at, kill_mask};
ghost use Rattle.registers.specs.Pattern.{is_number};

// "a register of four f32 channels" under the instruction's write mask, bit c of which is for channel c: what a processor is tested by.
#[derive(Drop)]
pub struct Masked {
    pub c0: f32,
    pub c1: f32,
    pub c2: f32,
    pub c3: f32,
    pub mask: u32,
}

// How many channels a register has.
pub const CHANNELS: usize = 4;

// Whether a channel is under its bit of the write mask and less than zero.
fn under(bit: u32, channel: f32) -> bool
    ensures { result ≡ (eqb bit 1 and less_than_zero channel) }
{
    (bit == 1) & (channel < 0.0)
}

// Whether a channel under the write mask is less than zero. All four are asked, without a branch between them: that is quicker
// than stopping at the first.
pub fn kills(register: Masked) -> bool
    ensures { result ≡ killed_by register }
{
    let mask = register.mask;
    under(mask % 2, register.c0)
        | (under(mask / 2 % 2, register.c1)
            | (under(mask / 4 % 2, register.c2) | under(mask / 8 % 2, register.c3)))
}

// The register of processor `i` in a list, four channels a processor, under the write mask.
fn masked_at(registers: &[f32], i: usize, mask: u32) -> Masked
    requires { i * channel_count + channel_count ≤ length registers.now }
    ensures { result ≡ masked_at registers.now i mask }
{
    Masked {
        c0: registers[i * CHANNELS],
        c1: registers[i * CHANNELS + 1],
        c2: registers[i * CHANNELS + 2],
        c3: registers[i * CHANNELS + 3],
        mask,
    }
}

// The registers of a list that kill, bit i for processor i: from the last one down, so that each bit moves up to its place.
pub fn kill_mask(registers: &[f32], mask: u32) -> u32
    requires { length registers.now ≤ most_channels }
    ensures { result ≡ kill_mask (length registers.now / channel_count) registers.now mask }
{
    let mut found = 0u32;
    for i in (0..registers.len() / CHANNELS).rev() {
        found = found * 2 + u32::from(kills(masked_at(registers, i, mask)));
    }
    found
}

// The sign bit of a pattern, and infinity's: without its sign bit a greater pattern is a NaN.
const SIGN: u32 = 0x80000000;

const INFINITY: u32 = 0x7F800000;

// Whether a bit pattern is a number's, and no NaN's.
fn is_number(bits: u32) -> bool
    ensures { result ≡ is_number bits }
{
    bits % SIGN <= INFINITY
}

// The float of a bit pattern. `f32::from_bits` is defined at a number's pattern alone; a NaN's float is any NaN, since floats are only compared.
// Without a branch between the channels all four are compared at once.
fn float_of(bits: u32) -> f32
    ensures { result ≡ float bits }
{
    if is_number(bits) {
        f32::from_bits(bits)
    } else {
        0.0 / 0.0
    }
}

// The larger of two channels by their patterns: `a`, bit for bit, where `b < a`, otherwise `b`. A NaN's payload is copied too.
fn larger(a: u32, b: u32) -> u32
    ensures { result ≡ maximum_of a b }
{
    if float_of(b) < float_of(a) { a } else { b }
}

// One of two channels by their patterns: `a`, bit for bit, where the third is at least zero, otherwise `b`.
fn chosen(a: u32, b: u32, third: u32) -> u32
    ensures { result ≡ choice_of a b third }
{
    if float_of(third) >= 0.0 { a } else { b }
}

// The maximum of two registers of bit patterns, channel by channel.
// Kept (design pass 2, no plainer): this and the next differ in their operands' number, and each is its four channels.
pub fn maximum(a: &[u32; CHANNELS], b: &[u32; CHANNELS]) -> [u32; CHANNELS]
    ensures { result ≡ each_of2 maximum_of a.now b.now }
{
    [
        larger(a[0], b[0]),
        larger(a[1], b[1]),
        larger(a[2], b[2]),
        larger(a[3], b[3]),
    ]
}

// The choice between two registers of bit patterns by a third one, channel by channel.
pub fn choice(a: &[u32; CHANNELS], b: &[u32; CHANNELS], third: &[u32; CHANNELS]) -> [u32; CHANNELS]
    ensures { result ≡ each_of3 choice_of a.now b.now third.now }
{
    [
        chosen(a[0], b[0], third[0]),
        chosen(a[1], b[1], third[1]),
        chosen(a[2], b[2], third[2]),
        chosen(a[3], b[3], third[3]),
    ]
}
