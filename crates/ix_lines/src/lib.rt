//! Lines, words and numbers of texts.
//!
//! A text comes in pieces of any lengths. `Lines` keeps the unfinished line between them, and gives
//! each line of at most 512 bytes whole, and each longer one as a single notice. Of a text that is
//! there as a whole, `first_line` gives the first line, `split_word` the first word, `read_number`
//! the decimal number that it is, and `first_fault` the first line that isn't in a grammar.
//! `append` and `append_number` put bytes and decimal numbers into a line that is being written.
#![tactic(auto)]

ghost use Rattle.std.specs.Prelude.{◌≡◌, ◌+◌, ◌-◌, ◌<◌, ◌≤◌, ◌↔◌, ℕ, [], length, take, IsNone};
ghost use Rattle.std.specs.Prelude.{IfNone, IfSome};
ghost use Rattle.std.specs.Borrow.{sem};
ghost use Rattle.ix_lines.specs.Feeding.{unfinished, skipping, completes, holds_after, Feeds};

mod appending;
mod bytes;
pub mod laws;
mod line_faults;
mod number;
mod text_lines;
mod words;

pub use appending::{append, append_number};
use arrayvec::ArrayVec;
pub use bytes::is_word_byte;
pub use line_faults::{LineFault, LineGrammar, first_fault};
use memchr::memchr;
pub use number::{NumberAnd, number_and, read_number};
use std::marker::Model;
pub use text_lines::{FirstLine, first_line};
pub use words::split_word;

/// The most bytes that a line has, without the byte 10 that ends it.
pub const LINE_LIMIT: usize = 512;

/// The unfinished line of a text that comes in pieces, or that the rest of a line is
/// skipped which was too long.
#[derive(Drop)]
pub struct Lines {
    /// The unfinished line, or behind `open_len` bytes what is left of a line that was told.
    buffer: ArrayVec<u8, LINE_LIMIT>,
    /// How many bytes of the buffer the unfinished line has.
    open_len: usize,
    skipping: bool,
}

impl Model for Lines {
    ghost use Rattle.std.specs.Prelude.{take};
    ghost use Rattle.ix_lines.specs.Feeding.{UnfinishedLine};

    ghost Value = { UnfinishedLine };

    ghost use Rattle.ix_lines.specs.inside.Buffer.{shown, IsBuffer};

    ghost view = { λ lines. shown lines.skipping (take lines.open_len lines.buffer.items) };

    ghost invariant = { λ lines. IsBuffer lines.open_len lines.buffer.items };
}

/// What a feed tells.
#[derive(Clone, Copy)]
pub enum FedKind<'a> {
    /// A line of at most 512 bytes, without the byte 10 that ends it.
    Line(&'a [u8]),
    /// A line has its 513th byte, and no byte 10 so far. Its rest is skipped, through its byte 10.
    TooLong,
    /// The whole piece was taken, and completes no more.
    More,
}

/// What a feed tells, and how many bytes of the piece it took.
#[derive(Clone, Copy)]
pub struct Fed<'a> {
    pub kind: FedKind<'a>,
    pub used: usize,
}

impl Lines {
    ghost use Rattle.ix_lines.specs.inside.FeedAnswers.{told_item, HoldsAfter, IsTaking, ResumesAt};
    ghost use Rattle.ix_lines.specs.Cutting.{HasNoEnd};

    /// No text so far.
    pub fn new() -> Lines
        ensures { result ≡ unfinished [] }
    {
        Lines {
            buffer: ArrayVec::new(),
            open_len: 0,
            skipping: false,
        }
    }

    /// Drops the unfinished line, and skips no more.
    pub fn clear(&mut self)
        ensures { self.new ≡ unfinished [] }
    {
        self.open_len = 0;
        self.skipping = false;
    }

    /// Takes a piece up to the first item that it completes, and tells that item, or takes the
    /// whole piece. The rest of the piece is to be fed again, until the answer is `More`.
    pub fn feed<'a>(&'a mut self, piece: &'a [u8]) -> Fed<'a>
        // The first item of those that the piece completes, at the very byte that completes it.
        ensures tells { Feeds self.old piece.now (told_item result.kind) result.used }
        ensures more { IsNone (told_item result.kind) ↔ (completes self.old piece.now ≡ []) }
        ensures* holds { sem 𝓛 (HoldsAfter self.entry (take result.used piece.now)) }
    {
        let Some(start) = self.resume(piece) else {
            return Fed {
                kind: FedKind::More,
                used: piece.len(),
            };
        };
        let fed = self.take_line(&piece[start..]);
        Fed {
            kind: fed.kind,
            used: start + fed.used,
        }
    }

    /// Where the piece goes on with a line that isn't skipped, or None where all of it is skipped.
    fn resume(&mut self, piece: &[u8]) -> Option<usize>
        ensures some { IfSome result (λ place. ResumesAt self.old piece.now place self.new) }
        ensures none { IfNone result
            (self.old ≡ skipping × HasNoEnd piece.now × (self.new ≡ skipping)) }
    {
        if !self.skipping {
            return Some(0);
        }
        let end = memchr(b'\n', piece)?;
        self.clear();
        Some(end + 1)
    }

    /// Takes a piece up to the end of its first line, or to the byte that makes the line too long.
    fn take_line<'a>(&'a mut self, piece: &'a [u8]) -> Fed<'a>
        requires { IsTaking self.old }
        ensures tells { Feeds self.old piece.now (told_item result.kind) result.used }
        ensures* holds { sem 𝓛 (HoldsAfter self.entry (take result.used piece.now)) }
    {
        self.buffer.truncate(self.open_len);
        let room = LINE_LIMIT + 1 - self.open_len;
        let window = &piece[..room.min(piece.len())];
        match memchr(b'\n', window) {
            Some(end) => {
                let _ = self.buffer.try_extend_from_slice(&window[..end]);
                self.open_len = 0;
                Fed {
                    kind: FedKind::Line(self.buffer.as_slice()),
                    used: end + 1,
                }
            }
            None if window.len() == room => {
                self.skipping = true;
                Fed {
                    kind: FedKind::TooLong,
                    used: room,
                }
            }
            None => {
                let _ = self.buffer.try_extend_from_slice(window);
                self.open_len += window.len();
                Fed {
                    kind: FedKind::More,
                    used: window.len(),
                }
            }
        }
    }
}
