//! One connection.
ghost use Rattle.std.specs.Prelude.{◌≡◌, length, IfOk, IfSome};
ghost use Rattle.mio.specs.Net.{unix_stream_fd};
ghost use Rattle.ix_outside.specs.Event.{IsPiece};

use crate::backlog::{Backlog, Lost, go_on, send};
use crate::clock::now;
use crate::passing::receive;
use ix_outside::EventKind;
use mio::net::UnixStream;
use mio::{Interest, Poll, Token};
use std::alloc::Global;
use std::io;
use std::marker::Model;
use std::rt::Clock;
use std::time::Duration;

/// How much of a connection is read at its turn: about a line.
const MOST_PIECE: usize = 512;

/// After how many seconds a connection is closed whose peer takes nothing of what is kept for it.
const TAKE_TIME: u64 = 30;

/// A connection that is open.
#[derive(Drop)]
pub(crate) struct Connection {
    stream: UnixStream,
    /// What its peer hasn't taken yet. Until it has, nothing of the connection is read.
    backlog: Backlog,
    /// Nothing can be sent on it any more.
    gone: bool,
    /// It is to be closed.
    cut: bool,
    /// Since when its peer sends nothing and takes nothing.
    since: Duration,
}

/// Contracts see which stream it is.
impl Model for Connection {
    ghost use Rattle.std.specs.Prelude.{ℤ};
    ghost use Rattle.mio.specs.Net.{unix_stream_fd};

    ghost Value = { ℤ };

    ghost view = { λ connection. unix_stream_fd connection.stream };
}

impl Connection {
    /// A connection that was taken just now. What comes on it is reported for this place.
    pub(crate) fn new(
        alloc: Global,
        mut stream: UnixStream,
        poll: &Poll,
        place: usize,
        time: Duration,
    ) -> io::Result<Connection>
        ensures { IfOk result (λ connection. connection ≡ unix_stream_fd stream) }
    {
        poll.registry()
            .register(&mut stream, Token(place), Interest::READABLE)?;
        Ok(Connection {
            stream,
            backlog: Backlog::new(alloc),
            gone: false,
            cut: false,
            since: time,
        })
    }

    /// Whether its peer has taken all.
    pub(crate) fn is_clear(&self) -> bool {
        self.backlog.is_empty()
    }

    /// Whether its next event may be taken.
    pub(crate) fn is_read(&self) -> bool {
        self.cut || self.is_clear()
    }

    /// For how long its peer has been silent.
    pub(crate) fn silence(&self, time: Duration) -> Duration {
        time.saturating_sub(self.since)
    }

    /// Whether its peer has taken nothing of what is kept for it for too long.
    pub(crate) fn is_slow(&self, time: Duration) -> bool {
        !self.is_clear() && self.silence(time) >= Duration::from_secs(TAKE_TIME)
    }

    /// Has it closed at its next turn.
    pub(crate) fn cut(&mut self)
        ensures { self.new ≡ self.old }
    {
        self.cut = true;
    }

    /// What comes next on it, if anything is there.
    pub(crate) fn receive(&mut self, clock: &impl Clock, buf: &mut [u8]) -> Option<EventKind>
        ensures piece { IfSome result (IsPiece (length buf.old)) }
        ensures same { self.new ≡ self.old }
    {
        if self.cut {
            return Some(EventKind::Closed);
        }
        let room = buf.len().min(MOST_PIECE);
        let came = receive(&mut &self.stream, &mut buf[..room]);
        if came.is_some() {
            self.since = now(clock);
        }
        came
    }

    /// Sends the bytes, and keeps those that don't go out without waiting. False where they are
    /// lost.
    pub(crate) fn send(&mut self, clock: &impl Clock, bytes: &[u8]) -> bool
        ensures { self.new ≡ self.old }
    {
        if self.gone || self.cut {
            return false;
        }
        if self.is_clear() {
            self.since = now(clock);
        }
        match send(&mut &self.stream, &mut self.backlog, bytes) {
            Ok(()) => true,
            Err(Lost::Broken) => {
                self.gone = true;
                false
            }
            Err(Lost::Full) => {
                self.cut = true;
                false
            }
        }
    }

    /// Sends what is kept, as far as it goes without waiting.
    pub(crate) fn go_on(&mut self, time: Duration)
        ensures { self.new ≡ self.old }
    {
        match go_on(&mut &self.stream, &mut self.backlog) {
            Some(true) => self.since = time,
            Some(false) => {}
            None => self.gone = true,
        }
    }

    /// Has reported for this place what comes on it, and while something is kept, that more can go
    /// out. Where that fails, it is closed once its peer is silent too long.
    pub(crate) fn watch(&mut self, poll: &Poll, place: usize)
        ensures { self.new ≡ self.old }
    {
        let interest = if self.is_clear() {
            Interest::READABLE
        } else {
            Interest::READABLE | Interest::WRITABLE
        };
        let _ = poll
            .registry()
            .reregister(&mut self.stream, Token(place), interest);
    }
}
