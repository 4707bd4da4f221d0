//! What a site sent, the names that it heard, and the name of its file.
ghost use Rattle.std.specs.Prelude.{◌≡◌, ◌≤◌, ◌<◌, ◌+◌, ◌++◌, [], length, slice_get};
ghost use Rattle.std.specs.Prelude.{vec_len, vec_capacity, IfOk, Some};
ghost use Rattle.ix_outside.specs.Contents.{with_pair, with_gone};
ghost use Rattle.ix_memory.specs.inside.SentState.{no_sends};
ghost use Rattle.ix_outside.specs.Contents.{with_heard};
ghost use Rattle.ix_memory.specs.inside.Spans.{text_at};

use crate::room::put;
use std::alloc::{AllocError, Global};
use std::marker::Model;

/// A text by its two ends in the bytes of all texts.
#[derive(Clone, Copy)]
pub(crate) struct Span {
    pub start: usize,
    pub end: usize,
}

/// What one send sent.
#[derive(Clone, Copy)]
pub(crate) struct Pair {
    pub conn: u8,
    pub span: Span,
}

/// The sends in order, those of them that answered Gone, the names that were heard, and the name of
/// the file, with no bytes until one was attached.
#[derive(Drop)]
pub(crate) struct Sent {
    bytes: Vec<u8>,
    pairs: Vec<Pair>,
    gone: Vec<usize>,
    heard: Vec<Span>,
    name: Span,
}

impl Model for Sent {
    ghost use Rattle.std.specs.Prelude.{◌-◌, min, length, vec_capacity, vec_len};
    ghost use Rattle.ix_memory.specs.inside.SentState.{SentState, sends_of, AreKept};
    ghost use Rattle.ix_memory.specs.inside.Spans.{text_at};

    ghost Value = { SentState };

    ghost view = { λ s. record {
      sends = sends_of s.bytes.items s.pairs.items s.gone.items s.heard.items;
      name = text_at s.bytes.items s.name;
      spare_bytes = vec_capacity s.bytes - vec_len s.bytes;
      spare_records = min (vec_capacity s.pairs - vec_len s.pairs)
          (min (vec_capacity s.gone - vec_len s.gone) (vec_capacity s.heard - vec_len s.heard));
    } };

    ghost invariant = { λ s. AreKept (length s.bytes.items) s.pairs.items s.heard.items s.name };
}

impl Sent {
    /// No sends and no names, with the memory for so many bytes and so many records of each kind.
    pub(crate) fn new(alloc: Global, bytes: usize, records: usize) -> Result<Sent, AllocError>
        ensures sends { IfOk result (λ s. s.sends ≡ no_sends) }
        ensures name { IfOk result (λ s. s.name ≡ []) }
        ensures bytes { IfOk result (λ s. bytes ≤ s.spare_bytes) }
        ensures records { IfOk result (λ s. records ≤ s.spare_records) }
    {
        Ok(Sent {
            bytes: Vec::with_capacity(alloc, bytes)?,
            pairs: Vec::with_capacity(alloc, records)?,
            gone: Vec::with_capacity(alloc, records)?,
            heard: Vec::with_capacity(alloc, records)?,
            name: Span { start: 0, end: 0 },
        })
    }

    pub(crate) fn len(&self) -> usize
        ensures { result ≡ length self.now.sends.sent }
    {
        self.pairs.len()
    }

    pub(crate) fn at(&self, index: usize) -> (u8, &[u8])
        requires { index < length self.now.sends.sent }
        ensures { slice_get self.now.sends.sent index
            ≡ Some (record { conn = result.0; bytes = result.1.now }) }
    {
        let pair = self.pairs[index];
        (pair.conn, text(&self.bytes, pair.span))
    }

    pub(crate) fn send(&mut self, conn: u8, bytes: &[u8])
        requires bytes { length bytes.now ≤ self.old.spare_bytes }
        requires records { 1 ≤ self.old.spare_records }
        ensures sends { self.new.sends ≡ with_pair conn bytes.now self.old.sends }
        ensures name { self.new.name ≡ self.old.name }
        ensures bytes { self.old.spare_bytes ≤ self.new.spare_bytes + length bytes.now }
        ensures records { self.old.spare_records ≤ self.new.spare_records + 1 }
    {
        let span = kept(&mut self.bytes, bytes);
        put(&mut self.pairs, Pair { conn, span });
    }

    pub(crate) fn send_gone(&mut self, conn: u8, bytes: &[u8])
        requires bytes { length bytes.now ≤ self.old.spare_bytes }
        requires records { 1 ≤ self.old.spare_records }
        ensures sends { self.new.sends ≡ with_gone conn bytes.now self.old.sends }
        ensures name { self.new.name ≡ self.old.name }
        ensures bytes { self.old.spare_bytes ≤ self.new.spare_bytes + length bytes.now }
        ensures records { self.old.spare_records ≤ self.new.spare_records + 1 }
    {
        let place = self.pairs.len();
        put(&mut self.gone, place);
        let span = kept(&mut self.bytes, bytes);
        put(&mut self.pairs, Pair { conn, span });
    }

    pub(crate) fn hear(&mut self, name: &[u8])
        requires bytes { length name.now ≤ self.old.spare_bytes }
        requires records { 1 ≤ self.old.spare_records }
        ensures sends { self.new.sends ≡ with_heard name.now self.old.sends }
        ensures name { self.new.name ≡ self.old.name }
        ensures bytes { self.old.spare_bytes ≤ self.new.spare_bytes + length name.now }
        ensures records { self.old.spare_records ≤ self.new.spare_records + 1 }
    {
        let span = kept(&mut self.bytes, name);
        put(&mut self.heard, span);
    }

    pub(crate) fn open(&mut self, name: &[u8])
        requires { length name.now ≤ self.old.spare_bytes }
        ensures sends { self.new.sends ≡ self.old.sends }
        ensures name { self.new.name ≡ name.now }
        ensures bytes { self.old.spare_bytes ≤ self.new.spare_bytes + length name.now }
        ensures records { self.new.spare_records ≡ self.old.spare_records }
    {
        let span = kept(&mut self.bytes, name);
        self.name = span;
    }
}

fn text(bytes: &[u8], span: Span) -> &[u8]
    requires in_order { span.start ≤ span.end }
    requires within { span.end ≤ length bytes.now }
    ensures { result.now ≡ text_at bytes.entry.now span }
{
    &bytes[span.start..span.end]
}

/// There is room for the text, so no memory is taken.
fn kept(bytes: &mut Vec<u8>, text: &[u8]) -> Span
    requires { vec_len bytes.old + length text.now ≤ vec_capacity bytes.old }
    ensures items { bytes.new.items ≡ bytes.old.items ++ text.now }
    ensures capacity { vec_capacity bytes.old ≤ vec_capacity bytes.new }
    ensures start { result.start ≡ length bytes.old.items }
    ensures end { result.end ≡ length bytes.old.items + length text.now }
{
    let start = bytes.len();
    let taken = bytes.extend_from_slice(text);
    prove!(taken.is_ok());
    Span {
        start,
        end: bytes.len(),
    }
}
