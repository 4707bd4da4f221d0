//! The bytes that words are made of.

ghost use Rattle.std.specs.Prelude.{◌≡◌};
ghost use Rattle.ix_lines.specs.Bytes as spec;

/// Whether `byte` is an ASCII letter, an ASCII digit or `_`.
pub fn is_word_byte(byte: u8) -> bool
    ensures { result ≡ spec.is_word_byte byte }
{
    byte.is_ascii_alphanumeric() || byte == b'_'
}
