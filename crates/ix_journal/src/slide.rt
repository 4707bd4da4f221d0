//! The open records of a journal that comes in pieces.

ghost use Rattle.std.specs.Prelude.{◌≡◌, ◌↔◌, ◌+◌, ◌-◌, ◌^◌, ◌<◌, ◌≤◌, false, IsTrue};
ghost use Rattle.std.specs.Prelude.{length, take, drop, min};
ghost use Rattle.std.specs.Borrow.{sem};
ghost use Rattle.ix_journal.specs.Kept.{empty_at, extended, finished};
ghost use Rattle.ix_journal.specs.Slide.{WantMore};

use crate::entries::Marks;
use crate::records::Records;
use crate::{MOST_TEXT, OPEN};
use arrayvec::ArrayVec;
use byteorder::{BigEndian, ByteOrder};
use ix_lines::append;
use std::marker::Model;

/// The most bytes that a Slide keeps.
pub const SLIDE_ROOM: usize = 4096;

/// The records of a journal from a gate on, whose bytes come in pieces. The bytes from the gate on
/// that is next are kept in a buffer of 4,096 bytes. No memory is taken.
#[derive(Drop)]
pub struct Slide {
    /// What was taken; the bytes from `start` on are kept.
    buffer: ArrayVec<u8, SLIDE_ROOM>,
    start: usize,
    /// The place of the gate that the kept bytes begin with.
    gate: u64,
    /// What the records in front of this gate leave.
    marks: Marks,
    ended: bool,
}

impl Model for Slide {
    ghost use Rattle.std.specs.Prelude.{drop};
    ghost use Rattle.ix_journal.specs.Kept.{Kept, kept_at};

    ghost Value = { Kept };

    ghost use Rattle.ix_journal.specs.inside.SlideBuffer.{IsSlideBuffer};

    ghost view = { λ slide.
        kept_at slide.gate slide.marks (drop slide.start slide.buffer.items) slide.ended };

    ghost invariant = { λ slide.
        IsSlideBuffer slide.start slide.buffer.items slide.ended slide.gate slide.marks.actions };
}

/// What a Slide tells of the gate that is next.
#[derive(Clone, Copy, Debug)]
pub enum Slid<'a> {
    /// The gate is open: the text of the record behind it.
    Record(&'a [u8]),
    /// More bytes are wanted.
    More,
    /// The gate at this place is closed.
    Closed { gate: u64 },
    /// The open gate in front of this place isn't followed by a whole record that may stand there
    /// and a further gate.
    Damaged { at: u64 },
}

impl Slide {
    ghost use Rattle.ix_journal.specs.Slide.{TellsSlid};
    ghost use Rattle.ix_journal.specs.inside.Sliding.{LeavesThen};

    /// The records from the first gate of the file on, which is at this place, and of which no byte
    /// was taken yet.
    pub fn new(gate: u64) -> Slide
        ensures { result ≡ empty_at gate }
    {
        Slide {
            buffer: ArrayVec::new(),
            start: 0,
            gate,
            marks: Marks::fresh(),
            ended: false,
        }
    }

    /// Takes as many of the file's next bytes as there is room for, and tells how many. The rest of
    /// the piece is to be offered again.
    pub fn take(&mut self, piece: &[u8]) -> usize
        requires { self.old.ended ≡ false }
        ensures count { result ≡ min (length piece.now) (SLIDE_ROOM - length self.old.bytes) }
        ensures kept { self.new ≡ extended self.old (take result piece.now) }
    {
        let room = SLIDE_ROOM - (self.buffer.len() - self.start);
        let count = piece.len().min(room);
        self.start = make_room(&mut self.buffer, self.start, count);
        append(&mut self.buffer, &piece[..count]);
        count
    }

    /// Says that no more bytes come.
    pub fn ended(&mut self)
        requires { 0 < length self.old.bytes }
        ensures { self.new ≡ finished self.old }
    {
        self.ended = true;
    }

    /// What the records leave that stand in front of the next gate.
    pub fn marks(&self) -> Marks
        ensures { result ≡ self.now.marks }
    {
        self.marks
    }

    /// What stands at the next gate. A record is lent once: the gate behind it is the next. After
    /// any other answer the gate stays the next.
    pub fn next(&mut self) -> Slid<'_>
        requires { self.old.gate < 2 ^ 63 }
        ensures tells { TellsSlid self.old result }
        ensures* keeps { sem 𝓛 (LeavesThen self.entry self.old result) }
    {
        let kept = &self.buffer.as_slice()[self.start..];
        if !self.ended && want_more(kept) {
            return Slid::More;
        }
        let mut records = Records::behind(kept, 0, self.marks);
        match records.next() {
            Some(Ok(text)) => {
                self.start += records.gate();
                self.gate += records.gate() as u64;
                self.marks = records.marks();
                Slid::Record(text)
            }
            Some(Err(damaged)) => Slid::Damaged {
                at: self.gate + damaged.at as u64,
            },
            None => Slid::Closed { gate: self.gate },
        }
    }
}

/// Whether the bytes don't tell what stands at their first gate.
fn want_more(kept: &[u8]) -> bool
    ensures { IsTrue result ↔ WantMore kept.now }
{
    let Some((gate, rest)) = kept.split_first() else {
        return true;
    };
    if *gate != OPEN {
        return false;
    }
    if rest.len() < 2 {
        return true;
    }
    let length = usize::from(BigEndian::read_u16(rest));
    length <= MOST_TEXT && rest.len() - 2 <= length
}

/// Makes room for so many more bytes, where need be by dropping those in front of `start`, and
/// tells where the bytes from `start` on begin then.
fn make_room(buffer: &mut ArrayVec<u8, SLIDE_ROOM>, start: usize, count: usize) -> usize
    requires within { start ≤ length buffer.old.items }
    requires fits { length buffer.old.items - start + count ≤ SLIDE_ROOM }
    ensures same { drop result buffer.new.items ≡ drop start buffer.old.items }
    ensures within { result ≤ length buffer.new.items }
    ensures room { length buffer.new.items + count ≤ SLIDE_ROOM }
{
    if count <= buffer.remaining_capacity() {
        return start;
    }
    drop_front(buffer, start);
    0
}

/// Drops so many bytes in front.
fn drop_front(buffer: &mut ArrayVec<u8, SLIDE_ROOM>, count: usize)
    requires { count ≤ length buffer.old.items }
    ensures { buffer.new.items ≡ drop count buffer.old.items }
{
    let rest = buffer.len() - count;
    buffer.as_mut_slice().copy_within(count.., 0);
    buffer.truncate(rest);
}
