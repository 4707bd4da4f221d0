//! The connections that are open, up to 64 at once, and those that wait to be one.
ghost use Rattle.std.specs.Prelude.{◌≡◌, ◌<◌, None, length, IfOk, IfSome};
ghost use Rattle.ix_outside.specs.Event.{IsPiece};
ghost use Rattle.ix_many.specs.inside.Streams.{ComesOn, IsFree, KeepsStreams, SlotComes};

use crate::clock::now;
use crate::connection::Connection;
use crate::turns::Turns;
use crate::wire::CONNECTIONS;
use ix_outside::EventKind;
use mio::net::{UnixListener, UnixStream};
use mio::{Events, Interest, Poll, Token};
use std::alloc::Global;
use std::fs::Files;
use std::io;
use std::io::ErrorKind;
use std::marker::Model;
use std::net::Net;
use std::rt::Clock;
use std::time::Duration;

/// The token of the listener; those of the connections are their numbers.
const LISTENER: usize = CONNECTIONS;

/// After how many seconds a connection on which nothing came may be closed, where another one
/// waits.
const IDLE_TIME: u64 = 60;

/// After how many seconds is looked again for those that are silent.
const LOOK_TIME: u64 = 1;

#[derive(Drop)]
pub(crate) struct Connections {
    alloc: Global,
    poll: Poll,
    events: Events,
    listener: UnixListener,
    /// Connections may wait at the listener.
    waiting: bool,
    places: Vec<Option<Connection>>,
    turns: Turns,
}

/// Contracts see which stream has which number.
impl Model for Connections {
    ghost use Rattle.ix_many.specs.inside.Streams.{Streams};

    ghost Value = { Streams };

    ghost view = { λ connections. connections.places.items };
}

impl Connections {
    /// Makes the file of the socket, and listens. No number has a stream yet.
    pub(crate) fn listen<R: Files + Net>(
        alloc: Global,
        rt: &R,
        name: &str,
    ) -> io::Result<Connections>
        ensures { IfOk result IsFree }
    {
        let poll = Poll::new(rt)?;
        let events = Events::with_capacity(alloc, CONNECTIONS + 1)?;
        let mut places = Vec::with_capacity(alloc, CONNECTIONS)?;
        for _ in 0..CONNECTIONS {
            places.push(None)?;
        }
        let mut listener = UnixListener::bind(rt, name)?;
        poll.registry()
            .register(&mut listener, Token(LISTENER), Interest::READABLE)?;
        Ok(Connections {
            alloc,
            poll,
            events,
            listener,
            waiting: true,
            places,
            turns: Turns::new(),
        })
    }

    /// The next place of this round that wants a turn. None where the round is over.
    pub(crate) fn next_turn(&mut self) -> Option<usize>
        ensures bound { IfSome result (λ place. place < 64) }
        ensures streams { self.new ≡ self.old }
    {
        self.turns.next()
    }

    /// Whether this connection wants a turn.
    pub(crate) fn is_wanted(&self, place: usize) -> bool
        requires { place < 64 }
    {
        self.turns.is_wanted(place)
    }

    /// Whether this connection is open, and its next event may be taken.
    pub(crate) fn is_read(&self, place: usize) -> bool {
        matches!(self.places.get(place), Some(Some(connection)) if connection.is_read())
    }

    /// What comes next on this connection, if anything is there. One that ends is let go.
    pub(crate) fn receive(
        &mut self,
        clock: &impl Clock,
        place: usize,
        buf: &mut [u8],
    ) -> Option<EventKind>
        requires { place < 64 }
        ensures piece { IfSome result (IsPiece (length buf.old)) }
        ensures streams { ComesOn place result self.old self.new }
    {
        let came = match self.places.get_mut(place) {
            Some(slot) => receive_on(slot, clock, buf),
            None => None,
        };
        if !matches!(came, Some(EventKind::Bytes(_))) {
            self.turns.rest(place);
        }
        came
    }

    /// Sends on a connection. False where the bytes are lost.
    pub(crate) fn send(&mut self, clock: &impl Clock, place: usize, bytes: &[u8]) -> bool
        requires { place < 64 }
        ensures { self.new ≡ self.old }
    {
        let sent = match self.places.get_mut(place) {
            Some(slot) => send_on(slot, clock, &self.poll, place, bytes),
            None => false,
        };
        if self.is_read(place) {
            // Its end may be due.
            self.turns.want(place);
        }
        sent
    }

    /// Begins a round: waits until something is to be done, takes those that wait, and has those
    /// closed that are silent too long.
    pub(crate) fn begin_round(&mut self, clock: &impl Clock) -> io::Result<()>
        ensures { KeepsStreams self.old self.new }
    {
        self.look(clock, self.timeout())?;
        self.take_waiting(clock)?;
        self.cut_silent(clock);
        Ok(())
    }

    /// For how long nothing needs to be done if nothing comes.
    fn timeout(&self) -> Option<Duration> {
        if self.turns.any() {
            return Some(Duration::ZERO);
        }
        let open = self.places.iter().flatten().count();
        let clear = self
            .places
            .iter()
            .flatten()
            .all(|connection| connection.is_clear());
        if self.waiting && open < CONNECTIONS {
            Some(Duration::ZERO)
        } else if self.waiting || !clear {
            Some(Duration::from_secs(LOOK_TIME))
        } else {
            None
        }
    }

    /// Waits for at most this time until something came, and notes where.
    pub(crate) fn look(&mut self, clock: &impl Clock, timeout: Option<Duration>) -> io::Result<()>
        ensures { self.new ≡ self.old }
    {
        self.poll.poll(&mut self.events, timeout)?;
        let time = now(clock);
        if note_events(
            &self.events,
            &mut self.places,
            &mut self.turns,
            &self.poll,
            time,
        ) {
            self.waiting = true;
        }
        Ok(())
    }

    /// Takes those that wait, while there is room.
    fn take_waiting(&mut self, clock: &impl Clock) -> io::Result<()>
        ensures { KeepsStreams self.old self.new }
    {
        let mut took = false;
        for place in 0..CONNECTIONS {
            if self.waiting
                && let Some(slot) = self.places.get_mut(place)
                && slot.is_none()
            {
                if let Some(stream) = accept(&self.listener)? {
                    let time = now(clock);
                    *slot = Some(Connection::new(self.alloc, stream, &self.poll, place, time)?);
                    self.turns.want(place);
                    took = true;
                } else {
                    self.waiting = false;
                }
            }
        }
        if self.waiting && took {
            // The last place was taken: whether more wait is reported again.
            self.waiting = false;
            self.poll
                .registry()
                .reregister(&mut self.listener, Token(LISTENER), Interest::READABLE)?;
        }
        Ok(())
    }

    /// Has those closed whose peers take nothing, and where there are none and another one waits,
    /// the one that was silent longest.
    fn cut_silent(&mut self, clock: &impl Clock)
        ensures { self.new ≡ self.old }
    {
        let time = now(clock);
        if !self.cut_slow(time) && self.waiting {
            self.cut_idle(time);
        }
    }

    /// Has those closed whose peers take nothing. Whether there were any.
    fn cut_slow(&mut self, time: Duration) -> bool
        ensures { self.new ≡ self.old }
    {
        let mut found = false;
        for place in 0..CONNECTIONS {
            if let Some(slot) = self.places.get_mut(place)
                && cut_if_slow(slot, time)
            {
                self.turns.want(place);
                found = true;
            }
        }
        found
    }

    /// Where all places are taken, has the one closed that was silent longest, if it was so for
    /// long.
    fn cut_idle(&mut self, time: Duration)
        ensures { self.new ≡ self.old }
    {
        if let Some(place) = self.longest_silent(time)
            && let Some(slot) = self.places.get_mut(place)
        {
            cut_at(slot);
            self.turns.want(place);
        }
    }

    /// Where all places are taken, the one that was silent longest, if it was so for long.
    fn longest_silent(&self, time: Duration) -> Option<usize>
        ensures { IfSome result (λ place. place < 64) }
    {
        let mut longest = Duration::from_secs(IDLE_TIME);
        let mut found = None;
        for place in 0..CONNECTIONS {
            let Some(Some(connection)) = self.places.get(place) else {
                return None;
            };
            let silence = connection.silence(time);
            if silence >= longest {
                longest = silence;
                found = Some(place);
            }
        }
        found
    }
}

/// What comes next on the connection of a place, if there is one and anything is there. One that
/// ends is let go.
fn receive_on(
    slot: &mut Option<Connection>,
    clock: &impl Clock,
    buf: &mut [u8],
) -> Option<EventKind>
    ensures piece { IfSome result (IsPiece (length buf.old)) }
    ensures stream { SlotComes result slot.old slot.new }
{
    let came = match slot {
        Some(connection) if connection.is_read() => connection.receive(clock, buf),
        _ => None,
    };
    if came == Some(EventKind::Closed) {
        *slot = None;
    }
    came
}

/// Sends on the connection of a place, if there is one. False where the bytes are lost.
fn send_on(
    slot: &mut Option<Connection>,
    clock: &impl Clock,
    poll: &Poll,
    place: usize,
    bytes: &[u8],
) -> bool
    ensures { slot.new ≡ slot.old }
{
    let Some(connection) = slot else {
        return false;
    };
    let was_clear = connection.is_clear();
    let sent = connection.send(clock, bytes);
    if was_clear && !connection.is_read() {
        connection.watch(poll, place);
    }
    sent
}

/// Sends what is kept for the peer of a place. Whether its next event may be taken.
fn go_on_at(slot: &mut Option<Connection>, poll: &Poll, place: usize, time: Duration) -> bool
    ensures { slot.new ≡ slot.old }
{
    let Some(connection) = slot else {
        return false;
    };
    if !connection.is_clear() {
        connection.go_on(time);
        if connection.is_clear() {
            connection.watch(poll, place);
        }
    }
    connection.is_read()
}

/// Has the connection of a place closed if its peer takes nothing. Whether it has.
fn cut_if_slow(slot: &mut Option<Connection>, time: Duration) -> bool
    ensures { slot.new ≡ slot.old }
{
    let Some(connection) = slot else {
        return false;
    };
    let slow = connection.is_slow(time);
    if slow {
        connection.cut();
    }
    slow
}

/// Has the connection of a place closed, if there is one.
fn cut_at(slot: &mut Option<Connection>)
    ensures { slot.new ≡ slot.old }
{
    if let Some(connection) = slot {
        connection.cut();
    }
}

/// Notes where something came, and sends what was kept there. Whether the listener was reported.
fn note_events(
    events: &Events,
    places: &mut Vec<Option<Connection>>,
    turns: &mut Turns,
    poll: &Poll,
    time: Duration,
) -> bool
    ensures { places.new.items ≡ places.old.items }
{
    let mut waiting = false;
    for event in events {
        let place = event.token().0;
        if place >= CONNECTIONS {
            waiting = true;
        } else if let Some(slot) = places.get_mut(place)
            && go_on_at(slot, poll, place, time)
        {
            turns.want(place);
        }
    }
    waiting
}

/// The next one of those that wait, if any does. One that broke off before it was taken is passed
/// over.
fn accept(listener: &UnixListener) -> io::Result<Option<UnixStream>> {
    for _ in 0..u64::MAX {
        match listener.accept() {
            Ok((stream, _)) => return Ok(Some(stream)),
            Err(error) if error.kind() == ErrorKind::WouldBlock => return Ok(None),
            Err(error) if broke_off(&error) => {}
            Err(error) => return Err(error),
        }
    }
    Ok(None)
}

/// Whether this is of one connection alone, so that others can still be taken.
fn broke_off(error: &io::Error) -> bool {
    matches!(
        error.kind(),
        ErrorKind::ConnectionAborted | ErrorKind::ConnectionReset | ErrorKind::Interrupted
    )
}
