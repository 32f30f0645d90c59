// The fields of a format word, and the window that base, format and height describe.
ghost use Rattle.std.specs.Prelude.{◌≡◌};
ghost use Rattle.command.specs.Format.{pitch_of, tiled_of, superfine_of, code_of, size_of, channels_of, window_of, window_seen};

use layout;

// Bits 12:0.
pub fn pitch(format: u32) -> u32
    ensures { result ≡ pitch_of format }
{
    format % 8192
}

// Bit 16.
pub fn tiled(format: u32) -> bool
    ensures { result ≡ tiled_of format }
{
    format / 65536 % 2 == 1
}

// Bit 17.
pub fn superfine(format: u32) -> bool
    ensures { result ≡ superfine_of format }
{
    format / 131072 % 2 == 1
}

// Bits 26:24.
pub fn code(format: u32) -> u32
    ensures { result ≡ code_of format }
{
    format / 16777216 % 8
}

// Bytes of an element of a format code; 0 for a code that is refused. The codes of a stream can't be foretold, so no branch is
// taken on them: the sizes stand in one number, five bits for each code.
pub fn size(code: u32) -> u32
    ensures { result ≡ size_of code }
{
    if 7 < code {
        return 0;
    }
    ((17043586u64 >> (5 * code)) % 32) as u32
}

// Channels of an element of a format code; 0 for a code that is refused.
pub fn channels(code: u32) -> u32
    ensures { result ≡ channels_of code }
{
    match code {
        0 => 1,
        1 => 4,
        2 => 1,
        3 => 2,
        4 => 4,
        _ => 0,
    }
}

// An accepted window, as base, format word and height describe it: its row step and its span.
#[derive(Clone, Copy)]
pub struct Window {
    pub step: u32,
    pub span: u32,
}

// What is kept in its place where a window isn't accepted.
pub const NO_WINDOW: Window = Window { step: 0, span: 0 };

// The window that the words describe, none where it isn't accepted. Its layout is asked by numbers, so that nothing goes through memory.
pub fn window_of(base: u32, format: u32, height: u32) -> Option<Window>
    ensures { result ≡ window_seen (window_of base format height) }
{
    let pitch = pitch(format);
    let size = size(code(format));
    let tiled = tiled(format);
    if !layout::well_formed(base, pitch, size) {
        return None;
    }
    let row = layout::stream_stride(base, pitch, height, size, tiled);
    if row < 1 {
        return None;
    }
    Some(Window {
        step: layout::row_step(pitch, size, tiled),
        span: layout::rows_taken(height, size, tiled) * row,
    })
}
