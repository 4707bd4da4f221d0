//! A place in a script.
ghost use Rattle.std.specs.Prelude.{◌≡◌, ◌<◌};
ghost use Rattle.std.specs.List.{AllByRecursion};
ghost use Rattle.ix_script.specs.Grammar.{InGrammar};
ghost use Rattle.ix_lines.specs.TextLines.{lines_of};

use crate::line::{checked_line, is_close, open_text};
use crate::script::Script;
use ix_lines::first_line;
use ix_outside::{Event, EventKind};

/// A place in a script: what is left of the line that was begun, and the lines behind it.
#[derive(Drop)]
pub(crate) struct Cursor<'a> {
    /// The whole script.
    pub bytes: &'a [u8],
    /// The lines that weren't begun.
    pub rest: &'a [u8],
    /// The moment of the line that was begun last, or 0.
    pub moment: u64,
    pub conn: u8,
    /// What is left of the text of that line.
    pub text: &'a [u8],
    /// Whether a byte 10 follows the text.
    pub line_end: bool,
    ghost valid: { ∥ AllByRecursion InGrammar (lines_of rest.now) ∥₁ },
    ghost in_range: { conn < 64 },
}

impl<'a> Cursor<'a> {
    ghost use Rattle.std.specs.Prelude.{◌≤◌, ◌++◌, ◌∷◌, [], ℕ, min, Some, true, false, Bool};
    ghost use Rattle.std.specs.Prelude.{length, take, drop, MatchBool, MatchOption};
    ghost use Rattle.ix_outside.specs.Contents.{piece_of};
    ghost use Rattle.ix_outside.specs.Event.{FitsBuffer};
    ghost use Rattle.ix_script.specs.inside.Cursor.{open_bytes, later_events, left_of, IsCursorAt};
    ghost use Rattle.ix_script.specs.inside.Cursor.{IsBare};
    ghost use Rattle.ix_script.specs.Events.{closed_event};
    ghost use Rattle.ix_script.specs.Pieces.{left_after};
    ghost use Rattle.ix_script.specs.inside.NextPiece.{next_piece};
    ghost use Rattle.ix_script.specs.inside.Progress.{events_of};

    pub(crate) fn new(script: Script<'a>) -> Cursor<'a>
        ensures bytes { result.bytes.now ≡ script.entry }
        ensures left { left_of result ≡ events_of script.entry }
    {
        Cursor {
            bytes: script.bytes,
            rest: script.bytes,
            moment: 0,
            conn: 0,
            text: &[],
            line_end: false,
        }
    }

    /// The next event, or as much of it as fits the buffer.
    pub(crate) fn next(&mut self, buf: &mut [u8]) -> Event
        requires { 0 < length buf.old }
        ensures fits { FitsBuffer (length buf.old) result }
        ensures next { next_piece (length buf.old) (left_of self.old)
            ≡ Some (record { event = result; bytes = piece_of result.kind buf.new }) }
        ensures left { left_of self.new ≡ left_after (length buf.old) (left_of self.old) }
        ensures bytes { self.new.bytes ≡ self.old.bytes }
    {
        match self.begin() {
            Some(event) => event,
            None => {
                let count = self.give(buf);
                self.event(EventKind::Bytes(count))
            }
        }
    }

    /// Begins the next line where none is open. An event without bytes is answered at once, and
    /// None where bytes are to come.
    fn begin(&mut self) -> Option<Event>
        ensures begun { MatchOption result (IsCursorAt self.old self.new)
            (λ event. IsBare self.old event self.new) }
        ensures bytes { self.new.bytes ≡ self.old.bytes }
    {
        if !self.text.is_empty() || self.line_end {
            return None;
        }
        if self.rest.is_empty() {
            return Some(Event {
                conn: 0,
                moment: self.moment,
                kind: EventKind::End,
            });
        }
        if self.begin_line() {
            None
        } else {
            Some(self.event(EventKind::Closed))
        }
    }

    fn event(&self, kind: EventKind) -> Event
        ensures { result ≡ record { conn = self.now.conn; moment = self.now.moment; kind = kind } }
    {
        Event {
            conn: self.conn,
            moment: self.moment,
            kind,
        }
    }

    /// Begins the next line, and says whether it has bytes to come; else it closes its connection.
    fn begin_line(&mut self) -> bool
        requires idle { open_bytes self.old ≡ [] }
        requires more { 0 < length self.old.rest.now }
        ensures begun { MatchBool result
            (IsCursorAt self.old self.new)
            ((left_of self.old ≡ closed_event self.new.moment self.new.conn ∷ left_of self.new)
            × (open_bytes self.new ≡ [])) }
        ensures bytes { self.new.bytes ≡ self.old.bytes }
    {
        let first = first_line(self.rest);
        let line = checked_line(first.line);
        self.rest = first.rest;
        self.moment = line.moment;
        self.conn = line.conn;
        if is_close(line.text) {
            return false;
        }
        let open = open_text(line.text);
        self.text = open.text;
        self.line_end = open.line_end;
        true
    }

    /// Moves bytes of the line that was begun into the front of the buffer, and gives their number.
    fn give(&mut self, buf: &mut [u8]) -> usize
        ensures count { result ≡ min (length (open_bytes self.old)) (length buf.old) }
        ensures given { take result buf.new ≡ take result (open_bytes self.old) }
        ensures open { open_bytes self.new ≡ drop result (open_bytes self.old) }
        ensures later { later_events self.new ≡ later_events self.old }
        ensures moment { self.new.moment ≡ self.old.moment }
        ensures conn { self.new.conn ≡ self.old.conn }
        ensures bytes { self.new.bytes ≡ self.old.bytes }
    {
        let fill = self.text.len().min(buf.len());
        buf[..fill].copy_from_slice(&self.text[..fill]);
        self.text = &self.text[fill..];
        if !self.line_end || fill == buf.len() {
            return fill;
        }
        buf[fill] = b'\n';
        self.line_end = false;
        fill + 1
    }
}
