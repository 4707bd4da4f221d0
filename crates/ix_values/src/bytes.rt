//! The bytes that names and values are made of.

ghost use Rattle.std.specs.Prelude.{◌≡◌, ◌≤◌, ◌↔◌, IsTrue, length};
ghost use Rattle.std.specs.List.{list_all};
ghost use Rattle.ix_lines.specs.Bytes as spec;
ghost use Rattle.ix_values.specs.inside.Padding.{padded};
ghost use Rattle.ix_values.specs.Texts as texts;
ghost use Rattle.ix_values.specs.Texts.{IsName, IsValue};

use ix_lines::is_word_byte;

fn is_word(text: &[u8]) -> bool
    ensures { result ≡ list_all spec.is_word_byte text.now }
{
    text.iter().all(|byte| is_word_byte(*byte))
}

/// Whether `text` has 1 to 32 bytes, all of them word bytes.
pub(crate) fn is_value(text: &[u8]) -> bool
    ensures { IsTrue result ↔ IsValue text.now }
{
    !text.is_empty() && text.len() <= 32 && is_word(text)
}

/// Whether `text` has 1 to 32 bytes, all of them word bytes, the first of them a letter.
pub(crate) fn is_name(text: &[u8]) -> bool
    ensures { IsTrue result ↔ IsName text.now }
{
    begins_with_letter(text) && is_value(text)
}

/// Whether the first byte of `text` is there and is a letter.
pub(crate) fn begins_with_letter(text: &[u8]) -> bool
    ensures { result ≡ texts.begins_with_letter text.now }
{
    match text.first() {
        Some(first) => first.is_ascii_alphabetic(),
        None => false,
    }
}

pub(crate) fn zero_padded(text: &[u8]) -> [u8; 32]
    requires { length text.now ≤ 32 }
    ensures { result ≡ padded 32 0 text.now }
{
    let mut bytes = [0; 32];
    bytes[..text.len()].copy_from_slice(text);
    bytes
}
