//! The connections of a site, one after the other.
ghost use Rattle.std.specs.Prelude.{length};
ghost use Rattle.std.specs.Io.KnownBytes.{Consumes};
ghost use Rattle.ix_outside.specs.Contents.{piece_of};
ghost use Rattle.ix_outside.specs.Event.{IsPiece};

use ix_outside::EventKind;
use std::io;
use std::io::{ErrorKind, Read};
use std::os::unix::net::{UnixListener, UnixStream};

/// The next connection. One that broke off before it was taken is passed over.
pub(crate) fn accept(listener: &UnixListener) -> io::Result<UnixStream> {
    for stream in listener.incoming() {
        match stream {
            Err(error) if broke_off(&error) => {}
            taken => return taken,
        }
    }
    Err(io::Error::from(ErrorKind::TimedOut))
}

/// Whether this is of one connection alone, so that others can still be taken.
fn broke_off(error: &io::Error) -> bool {
    matches!(
        error.kind(),
        ErrorKind::ConnectionAborted | ErrorKind::ConnectionReset
    )
}

/// What comes next on a connection: bytes, which stand at the front of `buf`, or its end. A read
/// that fails is its end too. No byte is lost.
pub(crate) fn receive<S: Read>(stream: &mut S, buf: &mut [u8]) -> EventKind
    ensures piece { IsPiece (length buf.old) result }
    ensures bytes { Consumes (S.remaining stream.old) (S.remaining stream.new)
        (piece_of result buf.new) }
{
    for _ in 0..u64::MAX {
        match stream.read(buf) {
            Ok(0) => return EventKind::Closed,
            Ok(count) => return EventKind::Bytes(count),
            Err(error) if error.kind() == ErrorKind::Interrupted => {}
            Err(_) => return EventKind::Closed,
        }
    }
    EventKind::Closed
}
