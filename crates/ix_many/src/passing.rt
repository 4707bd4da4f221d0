//! The calls of a stream that doesn't wait.
ghost use Rattle.std.specs.Prelude.{◌≤◌, [], length, take, IfSome, IfNone, IfOk, OnErr};
ghost use Rattle.std.specs.Io.KnownBytes.{Appends, Consumes};
ghost use Rattle.ix_outside.specs.Contents.{piece_of};
ghost use Rattle.ix_many.specs.inside.Passing.{AppendsFront};
ghost use Rattle.ix_outside.specs.Event.{IsPiece};

use ix_outside::EventKind;
use std::io;
use std::io::{ErrorKind, Read, Write};

/// What comes next: bytes, which stand at the front of `buf`, or the end. A read that fails is the
/// end too. None where nothing is there yet. No byte is lost.
pub(crate) fn receive<S: Read>(stream: &mut S, buf: &mut [u8]) -> Option<EventKind>
    ensures piece { IfSome result (IsPiece (length buf.old)) }
    ensures bytes { IfSome result (λ kind.
        Consumes (S.remaining stream.old) (S.remaining stream.new) (piece_of kind buf.new)) }
    ensures none { IfNone result (Consumes (S.remaining stream.old) (S.remaining stream.new) []) }
{
    for _ in 0..u64::MAX {
        match stream.read(buf) {
            Ok(0) => return Some(EventKind::Closed),
            Ok(count) => return Some(EventKind::Bytes(count)),
            Err(error) if error.kind() == ErrorKind::Interrupted => {}
            Err(error) if error.kind() == ErrorKind::WouldBlock => return None,
            Err(_) => return Some(EventKind::Closed),
        }
    }
    Some(EventKind::Closed)
}

/// Writes as many of the bytes as go out without waiting, and gives their number.
pub(crate) fn put<W: Write>(stream: &mut W, bytes: &[u8]) -> io::Result<usize>
    ensures bound { IfOk result (λ count. count ≤ length bytes.now) }
    ensures bytes { IfOk result (λ count.
        Appends (W.contents stream.old) (W.contents stream.new) (take count bytes.now)) }
    ensures part { OnErr result
        (AppendsFront (W.contents stream.old) bytes.now (W.contents stream.new)) }
{
    let mut count = 0;
    for _ in 0..u64::MAX {
        if count == bytes.len() {
            break;
        }
        match stream.write(&bytes[count..]) {
            Ok(0) => break,
            Ok(more) => count += more,
            Err(error) if error.kind() == ErrorKind::Interrupted => {}
            Err(error) if error.kind() == ErrorKind::WouldBlock => break,
            Err(error) => return Err(error),
        }
    }
    Ok(count)
}
