//! Whose event comes next, and what is sent.
ghost use Rattle.std.specs.Prelude.{◌≡◌, ◌<◌, length, IfOk, IfSome};
ghost use Rattle.ix_many.specs.inside.Hold.{ComesByHold, GrantsInTurn};
ghost use Rattle.ix_many.specs.inside.Passing.{IsOneOf64};
ghost use Rattle.ix_outside.specs.Event.{IsPiece};
ghost use Rattle.ix_many.specs.inside.Streams.{Comes, ComesInTime, IsFree};

use crate::clock::now;
use crate::connections::Connections;
use crate::hold::Hold;
use ix_outside::EventKind;
use std::alloc::Global;
use std::fs::Files;
use std::io;
use std::io::ErrorKind;
use std::marker::Model;
use std::net::Net;
use std::rt::Clock;

/// How many connections are open at once.
pub(crate) const CONNECTIONS: usize = 64;

#[derive(Drop)]
pub(crate) struct Wire {
    connections: Connections,
    hold: Hold,
}

/// Contracts see which stream has which number, and the holder.
impl Model for Wire {
    ghost use Rattle.ix_many.specs.inside.Streams.{StreamsState};

    ghost Value = { StreamsState };

    ghost view = { λ wire. record { streams = wire.connections; hold = wire.hold } };
}

impl Wire {
    /// Makes the file of the socket, and listens. No number has a stream yet.
    pub(crate) fn listen<R: Files + Net>(alloc: Global, rt: &R, name: &str) -> io::Result<Wire>
        ensures { IfOk result (λ wire. IsFree wire.streams) }
    {
        let connections = Connections::listen(alloc, rt, name)?;
        Ok(Wire {
            connections,
            hold: Hold::new(),
        })
    }

    /// What comes next, and on which connection: on the holder's, if it comes in time, and else in
    /// turn.
    pub(crate) fn next(
        &mut self,
        clock: &impl Clock,
        buf: &mut [u8],
    ) -> io::Result<(usize, EventKind)>
        ensures event { IfOk result (IsOneOf64 (length buf.old)) }
        ensures streams { Comes result self.old.streams self.new.streams }
        ensures hold { IfOk result (λ _. ComesByHold self.old.hold self.new.hold) }
    {
        if let Some(place) = self.hold.take()
            && let Some(kind) = self.receive_of_holder(clock, place, buf)?
        {
            return Ok((place, kind));
        }
        for _ in 0..u64::MAX {
            match self.connections.next_turn() {
                Some(place) => {
                    if let Some(kind) = self.connections.receive(clock, place, buf) {
                        self.hold.came_in_turn();
                        return Ok((place, kind));
                    }
                }
                None => {
                    self.hold.begin_round();
                    self.connections.begin_round(clock)?;
                }
            }
        }
        Err(io::Error::from(ErrorKind::TimedOut))
    }

    /// Sends on a connection. False where the bytes are lost.
    pub(crate) fn send(&mut self, clock: &impl Clock, place: usize, bytes: &[u8]) -> bool
        requires { place < 64 }
        ensures streams { self.new.streams ≡ self.old.streams }
        ensures hold { GrantsInTurn self.old.hold self.new.hold }
    {
        let sent = self.connections.send(clock, place, bytes);
        if sent && bytes.starts_with(b"granted ") {
            self.hold.grant(place);
        }
        sent
    }

    /// What comes next on the connection on which an action was granted, if it comes within the
    /// time of a holder.
    fn receive_of_holder(
        &mut self,
        clock: &impl Clock,
        place: usize,
        buf: &mut [u8],
    ) -> io::Result<Option<EventKind>>
        requires { place < 64 }
        ensures piece { IfOk result (λ came. IfSome came (IsPiece (length buf.old))) }
        ensures streams { ComesInTime place result self.old.streams self.new.streams }
        ensures hold { self.new.hold ≡ self.old.hold }
    {
        let start = now(clock);
        for _ in 0..u64::MAX {
            let waited = now(clock).saturating_sub(start);
            if self.connections.is_wanted(place)
                && let Some(kind) = self.connections.receive(clock, place, buf)
            {
                self.hold.spend(waited);
                return Ok(Some(kind));
            }
            let left = self.hold.left_behind(waited);
            if left.is_zero() || !self.connections.is_read(place) {
                self.hold.spend(waited);
                break;
            }
            self.connections.look(clock, Some(left))?;
        }
        Ok(None)
    }
}
