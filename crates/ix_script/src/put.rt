//! The text of a send, put into a sink.
ghost use Rattle.std.specs.Prelude.{◌≡◌, ◌<◌, ◌++◌, [], ◌∷◌, length, decimal, OnOk};
ghost use Rattle.std.specs.Prelude.{OnErr, IfSome, IfNone};
ghost use Rattle.std.specs.Io.KnownBytes.{append_known};
ghost use Rattle.ix_outside.specs.Contents.{send_text};
ghost use Rattle.ix_outside.specs.Counts.{Rose};
ghost use Rattle.ix_outside.specs.Sink.{AppendsPart};
ghost use Rattle.ix_outside.specs.SinkState.{OnlyPuts};

use arrayvec::ArrayVec;
use ix_lines::{append, append_number};
use ix_outside::{Failed, Sink};

/// The longest text of a send that goes out in one put: a connection, a space,
/// and the longest reply.
const ROOM: usize = 260;

/// Puts the connection's number, a space and the bytes, in one put where they fit.
pub(crate) fn put_send<K: Sink>(sink: &mut K, conn: u8, bytes: &[u8]) -> Result<(), Failed>
    ensures whole { OnOk result ((K.state sink.new).written
        ≡ append_known (K.state sink.old).written (send_text conn bytes.now)) }
    ensures part { OnErr result
        (AppendsPart (K.state sink.old).written (send_text conn bytes.now)
        (K.state sink.new).written) }
    ensures failed { OnErr result (Rose (K.state sink.old).faults (K.state sink.new).faults) }
    ensures rest { OnlyPuts (K.state sink.old) (K.state sink.new) }
{
    match short_text(conn, bytes) {
        Some(text) => sink.put(text.as_slice()),
        None => put_long(sink, conn, bytes),
    }
}

fn short_text(conn: u8, bytes: &[u8]) -> Option<ArrayVec<u8, ROOM>>
    ensures short { IfSome result (λ text. text.items ≡ send_text conn bytes.now) }
    ensures long { IfNone result (ROOM < length (send_text conn bytes.now)) }
{
    let mut text = ArrayVec::new();
    append(&mut text, front_text(conn).as_slice());
    if bytes.len() > text.remaining_capacity() {
        return None;
    }
    append(&mut text, bytes);
    Some(text)
}

fn put_long<K: Sink>(sink: &mut K, conn: u8, bytes: &[u8]) -> Result<(), Failed>
    ensures whole { OnOk result ((K.state sink.new).written
        ≡ append_known (K.state sink.old).written (send_text conn bytes.now)) }
    ensures part { OnErr result
        (AppendsPart (K.state sink.old).written (send_text conn bytes.now)
        (K.state sink.new).written) }
    ensures failed { OnErr result (Rose (K.state sink.old).faults (K.state sink.new).faults) }
    ensures rest { OnlyPuts (K.state sink.old) (K.state sink.new) }
{
    let front = front_text(conn);
    match sink.put(front.as_slice()) {
        Ok(()) => sink.put(bytes),
        Err(Failed) => Err(Failed),
    }
}

/// What stands in front of the bytes.
fn front_text(conn: u8) -> ArrayVec<u8, 24>
    ensures { result.items ≡ decimal conn ++ 32 ∷ [] }
{
    let mut text = ArrayVec::new();
    append_number(&mut text, u64::from(conn));
    text.push(b' ');
    text
}
