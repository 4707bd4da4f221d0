//! The lines of a whole text.

ghost use Rattle.std.specs.Prelude.{◌≡◌, ◌+◌, ◌<◌, ◌≤◌, ◌∷◌, length};
ghost use Rattle.ix_lines.specs.TextLines.{lines_of};

use memchr::memchr;

/// The first line without its byte 10, and what stands behind it.
#[derive(Clone, Copy)]
pub struct FirstLine<'a> {
    pub line: &'a [u8],
    pub rest: &'a [u8],
}

/// The first line of bytes that have one, and what stands behind its byte 10, which the last line
/// may lack. Takes no memory.
pub fn first_line(bytes: &[u8]) -> FirstLine<'_>
    requires { 0 < length bytes.now }
    ensures lines { lines_of bytes.now ≡ result.line.now ∷ lines_of result.rest.now }
    ensures shorter { length result.rest.now < length bytes.now }
    ensures within { length result.line.now ≤ length bytes.now }
    ensures place { 0 < length result.rest.now
        → length result.line.now + 1 + length result.rest.now ≡ length bytes.now }
{
    match memchr(b'\n', bytes) {
        None => FirstLine {
            line: bytes,
            rest: &[],
        },
        Some(at) => FirstLine {
            line: &bytes[..at],
            rest: &bytes[at + 1..],
        },
    }
}
