//! The journal's grammar: what the bytes of a file say, and the bytes that are written to it.
//!
//! A journal begins with one byte, the head gate. Behind it stand the magic, the length of a text
//! and the text, then a gate, and then records, each with a gate behind it. The magic is `IXJ2`,
//! `IXJ1` in files of earlier programs, and `IXJ3` in those that a renewal makes. A record is the
//! length of a text and that text: `renewed` and two numbers; `boot` and the number of a boot; a
//! ticket, a space and an action; or an action alone. A length is two bytes, the higher first. A
//! gate is one byte, and is open exactly where it is A5. What stands behind the first closed gate
//! means nothing.
//!
//! Boots are numbered from 1. A ticket is of the last boot in front of its record, and its number
//! is above those of earlier records of this boot. A renewal stands at most once, in front of all
//! boots: the actions in front of it, the carried ones, stand for those of the journals before, and
//! the boots behind it go on from theirs.
//!
//! No reader copies or takes memory: texts are lent slices of the bytes.
#![tactic(auto)]

mod entries;
mod header;
pub mod laws;
mod outcome;
mod records;
mod scanning;
mod slide;
mod writing;

pub use entries::{Entry, Marks, Renewed};
pub use header::{Head, header_of, text_length};
pub use outcome::{JournalFault, Scan};
pub use records::{Damaged, Records};
pub use scanning::scan;
pub use slide::{SLIDE_ROOM, Slid, Slide};
pub use writing::{Record, Version, header_bytes, record_bytes, renewed_bytes};

/// The byte of an open gate. With any other byte a gate is closed.
pub const OPEN: u8 = 0xA5;

/// The byte that is written for a closed gate.
pub const CLOSED: u8 = 0;

/// How many bytes stand in front of the text of a header: the head gate, the magic and the
/// length of the text.
pub const FRONT_LENGTH: usize = 7;

/// The most open records of a journal that are of actions.
pub const MOST_RECORDS: usize = 1_000_000;

/// The most open records of a journal that are boots.
pub const MOST_BOOTS: u64 = 1_000_000;

/// The most bytes of a record's text: a ticket's 41, a space, and an action's 165.
pub(crate) const MOST_TEXT: usize = 207;

/// What the header of a journal begins with that a start makes.
pub(crate) const MAGIC: [u8; 4] = *b"IXJ2";

/// What the headers of version 1 begin with.
pub(crate) const FIRST_MAGIC: [u8; 4] = *b"IXJ1";

/// What the headers of version 3 begin with, which a renewal makes.
pub(crate) const RENEWED_MAGIC: [u8; 4] = *b"IXJ3";

/// The most actions, and the most boots, that a renewal says: 2^63.
pub(crate) const MOST_RENEWED: u64 = 1 << 63;
