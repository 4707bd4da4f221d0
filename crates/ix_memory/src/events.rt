//! The events that a site gives.
ghost use Rattle.std.specs.Prelude.{◌≡◌, ◌≤◌, ◌<◌, ◌+◌, ◌-◌, ◌^◌, ◌++◌, [], ◌∷◌, ℕ, length, take};
ghost use Rattle.std.specs.Prelude.{drop, IfOk, OnOk};
ghost use Rattle.ix_outside.specs.Contents.{piece_of};
ghost use Rattle.ix_outside.specs.Event.{FitsBuffer};
ghost use Rattle.ix_memory.specs.inside.EventsState.{IsKept, AreEventsKept, events_from};
ghost use Rattle.ix_memory.specs.inside.NextEvent.{next_event, then_coming};
ghost use Rattle.ix_memory.specs.inside.CanCome.{CanCome, CanAllCome, events_beside, last_moment};
ghost use Rattle.ix_memory.specs.inside.NextPiece.{next_piece_told, then_pieces};

use crate::room::{copy_text, put};
use ix_outside::{Event, EventKind};
use std::alloc::{AllocError, Global};
use std::marker::Model;

/// An event, and where its bytes begin in the bytes of all events.
#[derive(Clone, Copy)]
pub(crate) struct Piece {
    pub event: Event,
    pub start: usize,
}

/// The events in order, how many of them were given whole, and what was given.
#[derive(Drop)]
pub(crate) struct Events {
    bytes: Vec<u8>,
    pieces: Vec<Piece>,
    at: usize,
    given: Vec<Piece>,
    last: u64,
}

impl Model for Events {
    ghost use Rattle.std.specs.Prelude.{◌-◌, ◌≤◌, drop, length, vec_capacity, vec_len};
    ghost use Rattle.ix_memory.specs.inside.EventsState.{EventsState, events_from, AreEventsKept};

    ghost Value = { EventsState };

    ghost view = { λ s. record {
      coming = events_from s.bytes.items (drop s.at s.pieces.items);
      given = events_from s.bytes.items s.given.items;
      last = s.last;
      spare = vec_capacity s.given - vec_len s.given;
    } };

    // Each event has its bytes, and no more events were given whole than there are.
    ghost invariant = { λ s. AreEventsKept (length s.bytes.items) s.pieces.items
        × (s.at ≤ length s.pieces.items) };
}

impl Events {
    /// These events, each beside its bytes, none of them given yet. It takes the memory for
    /// `records` given events.
    pub(crate) fn new(
        alloc: Global,
        events: &[(Event, Vec<u8>)],
        records: usize,
    ) -> Result<Events, AllocError>
        requires { CanAllCome (events_beside events.now) }
        ensures coming { IfOk result (λ s. s.coming ≡ events_beside events.now) }
        ensures given { IfOk result (λ s. s.given ≡ []) }
        ensures last { IfOk result (λ s. s.last ≡ last_moment 0 (events_beside events.now)) }
        ensures spare { IfOk result (λ s. records ≤ s.spare) }
    {
        let mut bytes = Vec::new(alloc);
        let mut pieces = Vec::new(alloc);
        let mut last = 0;
        for (event, text) in events {
            add_piece(&mut bytes, &mut pieces, *event, text)?;
            last = event.moment;
        }
        Ok(Events {
            bytes,
            pieces,
            at: 0,
            given: Vec::with_capacity(alloc, records)?,
            last,
        })
    }

    /// Gives the next event, with its bytes at the front of the buffer. Where the buffer is too
    /// short for all of them, it gives a front of the event and keeps the rest; after the last
    /// event it gives the end.
    pub(crate) fn next(&mut self, buf: &mut [u8]) -> Event
        requires buf { 0 < length buf.old }
        requires spare { 1 ≤ self.old.spare }
        ensures event { record { event = result; bytes = piece_of result.kind buf.new }
            ≡ next_event (length buf.old) self.old.last self.old.coming }
        ensures coming { self.new.coming ≡ then_coming (length buf.old) self.old.coming }
        ensures given { self.new.given
            ≡ self.old.given
            ++ record { event = result; bytes = piece_of result.kind buf.new } ∷ [] }
        ensures last { self.new.last ≡ self.old.last }
        ensures spare { self.old.spare ≤ self.new.spare + 1 }
        ensures fits { FitsBuffer (length buf.old) result }
    {
        let piece = take_piece(&mut self.pieces, &mut self.at, self.last, buf.len());
        put(&mut self.given, piece);
        copy_front(&self.bytes, piece, buf);
        piece.event
    }
}

fn add_piece(
    bytes: &mut Vec<u8>,
    pieces: &mut Vec<Piece>,
    event: Event,
    text: &[u8],
) -> Result<(), AllocError>
    requires kept { AreEventsKept (length bytes.old.items) pieces.old.items }
    requires come { CanCome (record { event = event; bytes = text.now }) }
    ensures events { OnOk result (events_from bytes.new.items pieces.new.items
        ≡ events_from bytes.old.items pieces.old.items
        ++ record { event = event; bytes = text.now } ∷ []) }
    ensures kept { OnOk result (AreEventsKept (length bytes.new.items) pieces.new.items) }
{
    let start = bytes.len();
    bytes.extend_from_slice(text)?;
    match pieces.push(Piece { event, start }) {
        Ok(()) => Ok(()),
        Err(_) => Err(AllocError),
    }
}

/// Takes the next piece for a buffer of this length. What the buffer doesn't take stays as the
/// first piece to come.
fn take_piece(pieces: &mut Vec<Piece>, at: &mut usize, last: u64, room: usize) -> Piece
    requires at { at.old ≤ length pieces.old.items }
    requires room { 0 < room }
    requires kept { AreEventsKept (2 ^ 64 - 1) pieces.old.items }
    ensures piece { result ≡ next_piece_told room last (drop at.old pieces.old.items) }
    ensures coming { drop at.new pieces.new.items
        ≡ then_pieces room (drop at.old pieces.old.items) }
    ensures at { at.new ≤ length pieces.new.items }
    ensures kept { (count : ℕ) → AreEventsKept count pieces.old.items
        → AreEventsKept count pieces.new.items }
{
    if *at == pieces.len() {
        return end_piece(last);
    }
    let piece = pieces[*at];
    match piece.event.kind {
        EventKind::Bytes(count) if room < count => {
            pieces[*at] = rest_piece(piece, count, room);
            front_piece(piece, room)
        }
        _ => {
            *at += 1;
            piece
        }
    }
}

fn end_piece(moment: u64) -> Piece
    ensures { result
        ≡ record { event = record { conn = 0; moment = moment; kind = EventKind.End }; start = 0 } }
{
    Piece {
        event: Event {
            conn: 0,
            moment,
            kind: EventKind::End,
        },
        start: 0,
    }
}

fn front_piece(piece: Piece, room: usize) -> Piece
    ensures { result ≡ record piece { event = record piece.event { kind = EventKind.Bytes room } } }
{
    Piece {
        event: Event {
            kind: EventKind::Bytes(room),
            ..piece.event
        },
        start: piece.start,
    }
}

fn rest_piece(piece: Piece, count: usize, room: usize) -> Piece
    requires room { room < count }
    requires within { piece.start + count ≤ 2 ^ 64 - 1 }
    ensures { result
        ≡ record {
          event = record piece.event { kind = EventKind.Bytes (count - room) };
          start = piece.start + room;
        } }
{
    Piece {
        event: Event {
            kind: EventKind::Bytes(count - room),
            ..piece.event
        },
        start: piece.start + room,
    }
}

fn copy_front(bytes: &[u8], piece: Piece, buf: &mut [u8])
    requires kept { IsKept (length bytes.now) piece }
    requires fits { FitsBuffer (length buf.old) piece.event }
    ensures { piece_of piece.event.kind buf.new
        ≡ piece_of piece.event.kind (drop piece.start bytes.now) }
{
    if let EventKind::Bytes(count) = piece.event.kind {
        copy_text(bytes, piece.start, count, buf);
    }
}
