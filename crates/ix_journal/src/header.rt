//! The header, and the kind of a file.

ghost use Rattle.std.specs.Prelude.{◌≡◌, ◌↔◌, ◌<◌, ℕ, List, IsTrue, MatchOption, length, take};
ghost use Rattle.ix_journal.specs.inside.Fronts.{BeginsWithHeader, BeginsWithMagic};
ghost use Rattle.ix_journal.specs.inside.Fronts.{BeginsWithText};
ghost use Rattle.ix_journal.specs.Kinds.{HasHeader, HasKind};
ghost use Rattle.ix_journal.specs.inside.KindOf.{kind_told};

use crate::{FIRST_MAGIC, FRONT_LENGTH, MAGIC, OPEN, RENEWED_MAGIC};
use byteorder::{BigEndian, ByteOrder};

/// The kind of a file, and what its header tells.
#[derive(Clone, Copy, Debug)]
pub enum Head<'a> {
    /// A journal whose header was never finished: it has at most one byte, or its first byte is 00.
    Unfinished,
    /// A journal that was never opened: a header of this text and one closed gate, behind a head
    /// gate that isn't open.
    Unopened { text: &'a [u8] },
    /// A file that is no journal.
    Foreign,
    /// An open journal: its text, and the place of the gate behind its header.
    Ready { text: &'a [u8], gate: usize },
}

/// The kind of the file whose bytes these are. A text is lent from the bytes.
pub fn header_of<'a>(bytes: &'a [u8]) -> Head<'a>
    ensures { HasKind bytes.now (kind_told result) }
{
    let Some((head, rest)) = bytes.split_first() else {
        return Head::Unfinished;
    };
    if *head == 0 || rest.is_empty() {
        return Head::Unfinished;
    }
    let Some(text) = header_text(rest) else {
        return Head::Foreign;
    };
    let gate = FRONT_LENGTH + text.len();
    if *head == OPEN {
        return Head::Ready { text, gate };
    }
    if bytes.len() == gate + 1 && bytes[gate] != OPEN {
        return Head::Unopened { text };
    }
    Head::Foreign
}

/// How many bytes the text of a file's header has, if the file has one, where these are the first
/// seven bytes of the file.
pub fn text_length(front: &[u8]) -> usize
    requires { length front.now ≡ FRONT_LENGTH }
    ensures value { (file : List ℕ) (head : ℕ) (text behind : List ℕ)
        → take FRONT_LENGTH file ≡ front.now → HasHeader file head text behind
        → result ≡ length text }
    ensures short { result < 65536 }
{
    usize::from(BigEndian::read_u16(&front[FRONT_LENGTH - 2..]))
}

/// The text of the header that the bytes begin with, where the header is whole and a byte follows
/// it.
fn header_text<'a>(bytes: &'a [u8]) -> Option<&'a [u8]>
    ensures { MatchOption result
        ((text : List ℕ) → ¬ BeginsWithHeader bytes.now text)
        (λ text. BeginsWithHeader bytes.now text.now) }
{
    if !has_magic(bytes) {
        return None;
    }
    whole_text(&bytes[MAGIC.len()..])
}

/// Whether the bytes begin with the magic of a version that is read.
fn has_magic(bytes: &[u8]) -> bool
    ensures { IsTrue result ↔ BeginsWithMagic bytes.now }
{
    if bytes.starts_with(&FIRST_MAGIC) {
        return true;
    }
    if bytes.starts_with(&MAGIC) {
        return true;
    }
    bytes.starts_with(&RENEWED_MAGIC)
}

/// The text that the bytes begin with behind its length, where all of it is there and a byte
/// follows it.
pub(crate) fn whole_text<'a>(bytes: &'a [u8]) -> Option<&'a [u8]>
    ensures { MatchOption result
        ((text : List ℕ) → ¬ BeginsWithText bytes.now text)
        (λ text. BeginsWithText bytes.now text.now) }
{
    if bytes.len() < 2 {
        return None;
    }
    let length = usize::from(BigEndian::read_u16(bytes));
    let rest = &bytes[2..];
    if rest.len() <= length {
        return None;
    }
    Some(&rest[..length])
}
