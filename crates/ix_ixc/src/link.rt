//! The way to a real manager.
ghost use Rattle.std.specs.Prelude.{◌≡◌, []};
ghost use Rattle.ix_ixc.specs.inside.Untold.{untold_link};

use arrayvec::ArrayVec;
use ix_client::{Link, LinkFailed, is_expected, keep_line};
use std::io::{ErrorKind, Read, Write};
use std::marker::Model;
use std::net::Net;
use std::os::unix::net::UnixStream;

/// The most bytes that a reply has, without the byte 10 that ends it.
const LONGEST_REPLY: usize = 255;

/// A manager's Unix socket. Each call makes a connection of its own, and closes it.
///
/// A call waits for the manager, however long it takes. What comes behind the first line of a reply
/// isn't read.
#[derive(Drop)]
pub(crate) struct RealLink<'a, R> {
    rt: &'a R,
    socket: &'a str,
    calls: u64,
    line: ArrayVec<u8, 256>,
    faults: u64,
    balks: u64,
}

/// Contracts see how many calls were made, how many failed, how many gave a line that wasn't an
/// expected reply, and the line of the last call.
impl<'a, R> Model for RealLink<'a, R> {
    ghost use Rattle.ix_ixc.specs.inside.Untold.{RealLinkState};

    ghost Value = { RealLinkState };

    ghost view = { λ link. record {
      calls = link.calls;
      line = link.line.items;
      faults = link.faults;
      balks = link.balks;
    } };
}

impl<'a, R> RealLink<'a, R> {
    /// No call was made yet.
    pub(crate) fn new(rt: &'a R, socket: &'a str) -> Self
        ensures { result ≡ record { calls = 0; line = []; faults = 0; balks = 0 } }
    {
        RealLink {
            rt,
            socket,
            calls: 0,
            line: ArrayVec::new(),
            faults: 0,
            balks: 0,
        }
    }
}

impl<R: Net> Link for RealLink<'_, R> {
    ghost state = { untold_link };

    ghost sound = { λ _. tt };

    fn call(&mut self, line: &[u8], out: &mut ArrayVec<u8, 256>) -> Result<(), LinkFailed> {
        self.calls = self.calls.saturating_add(1);
        self.line = keep_line(line);
        if !exchange(self.rt, self.socket, line, out) {
            self.faults = self.faults.saturating_add(1);
            return Err(LinkFailed);
        }
        if !is_expected(line, out.as_slice()) {
            self.balks = self.balks.saturating_add(1);
        }
        Ok(())
    }
}

/// Sends the line over a new connection, and puts the first line that comes back into `out`. False
/// where no whole line comes.
fn exchange(net: &impl Net, socket: &str, line: &[u8], out: &mut ArrayVec<u8, 256>) -> bool {
    match UnixStream::connect(net, socket) {
        Ok(mut stream) => stream.write_all(line).is_ok() && receive(&mut stream, out),
        Err(_) => false,
    }
}

/// Puts the bytes in front of the first byte 10 behind those of `out`. False where the stream fails
/// or ends before it, or where they are more than `LONGEST_REPLY`. An interrupted read goes on.
fn receive<S: Read>(stream: &mut S, out: &mut ArrayVec<u8, 256>) -> bool {
    let mut piece = [0u8; 256];
    for _ in 0..u64::MAX {
        match stream.read(&mut piece) {
            Ok(0) => return false,
            Ok(count) => match take_piece(&piece[..count], out) {
                Taken::Whole => return true,
                Taken::Part => {}
                Taken::TooLong => return false,
            },
            Err(error) if error.kind() == ErrorKind::Interrupted => {}
            Err(_) => return false,
        }
    }
    false
}

/// What a piece of a reply made of its first line.
#[derive(Clone, Copy, Debug, PartialEq, Eq)]
enum Taken {
    /// The line is whole.
    Whole,
    /// The line goes on behind the piece.
    Part,
    /// The line has more than `LONGEST_REPLY` bytes.
    TooLong,
}

/// Puts the bytes of the piece that stand in front of its first byte 10 behind those of `out`.
fn take_piece(piece: &[u8], out: &mut ArrayVec<u8, 256>) -> Taken {
    let end = piece.iter().position(|byte| *byte == b'\n');
    let front = &piece[..end.unwrap_or(piece.len())];
    if out.len().saturating_add(front.len()) > LONGEST_REPLY {
        return Taken::TooLong;
    }
    let _ = out.try_extend_from_slice(front);
    if end.is_some() {
        Taken::Whole
    } else {
        Taken::Part
    }
}
