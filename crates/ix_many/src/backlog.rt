//! What the peer of a connection hasn't taken yet.
ghost use Rattle.std.specs.Prelude.{◌≡◌, ◌≤◌, ◌==◌, ◌++◌, [], drop, length, true, false, IfSome};
ghost use Rattle.std.specs.Prelude.{OnOk, OnErr};
ghost use Rattle.std.specs.Io.KnownBytes.{Appends, append_known};
ghost use Rattle.ix_many.specs.inside.Passing.{AppendsFront};

use crate::passing::put;
use std::alloc::Global;
use std::io::Write;
use std::marker::Model;

/// How many bytes are kept for a peer. The replies to one poll are fewer.
pub(crate) const MOST_KEPT: usize = 1 << 20;

/// How much room a backlog in which nothing is kept may hold.
const MOST_ROOM: usize = 1 << 16;

/// The bytes that are still to go out, in order.
#[derive(Drop)]
pub(crate) struct Backlog {
    alloc: Global,
    bytes: Vec<u8>,
    /// So many of them went out.
    gone: usize,
}

/// Contracts see the bytes that are still to go out.
impl Model for Backlog {
    ghost use Rattle.std.specs.Prelude.{◌≤◌, ℕ, List, drop, length};

    ghost Value = { List ℕ };

    ghost view = { λ backlog. drop backlog.gone backlog.bytes.items };

    ghost invariant = { λ backlog. backlog.gone ≤ length backlog.bytes.items };
}

impl Backlog {
    /// Nothing is to go out.
    pub(crate) fn new(alloc: Global) -> Backlog
        ensures { result ≡ [] }
    {
        Backlog {
            alloc,
            bytes: Vec::new(alloc),
            gone: 0,
        }
    }

    /// Whether all went out.
    pub(crate) fn is_empty(&self) -> bool
        ensures { result ≡ (length self.now == 0) }
    {
        self.gone == self.bytes.len()
    }

    /// Adds bytes behind the others. False, and nothing is added, where they would be too many or
    /// there is no memory for them.
    pub(crate) fn add(&mut self, bytes: &[u8]) -> bool
        ensures added { result ≡ true → self.new ≡ self.old ++ bytes.now }
        ensures full { result ≡ false → self.new ≡ self.old }
    {
        let room = MOST_KEPT.saturating_sub(self.bytes.len());
        bytes.len() <= room && self.bytes.extend_from_slice(bytes).is_ok()
    }

    /// Lets all go, and gives back more than a little room.
    pub(crate) fn clear(&mut self)
        ensures { self.new ≡ [] }
    {
        self.bytes.clear();
        self.gone = 0;
        if self.bytes.capacity() > MOST_ROOM {
            self.bytes = Vec::new(self.alloc);
        }
    }

    /// The bytes.
    fn rest(&self) -> &[u8]
        ensures { result.now ≡ self.now }
    {
        &self.bytes[self.gone..]
    }

    /// So many bytes went out.
    fn take(&mut self, count: usize)
        requires { count ≤ length self.old }
        ensures { self.new ≡ drop count self.old }
    {
        self.gone += count;
        if self.gone == self.bytes.len() {
            self.clear();
        }
    }
}

/// Why bytes were lost.
#[derive(Clone, Copy)]
pub(crate) enum Lost {
    /// The stream takes no more.
    Broken,
    /// Too many are kept, or there is no memory for them.
    Full,
}

/// Sends the bytes behind those that are kept: as far as they go without waiting, and keeps the
/// rest. Where they are lost, a front of them may have gone out.
pub(crate) fn send<W: Write>(
    stream: &mut W,
    backlog: &mut Backlog,
    bytes: &[u8],
) -> Result<(), Lost>
    ensures sent { OnOk result (Appends
        (append_known (W.contents stream.old) backlog.old)
        (append_known (W.contents stream.new) backlog.new) bytes.now) }
    ensures lost { OnErr result (AppendsFront
        (append_known (W.contents stream.old) backlog.old) bytes.now
        (append_known (W.contents stream.new) backlog.new)) }
{
    if !backlog.is_empty() {
        return keep(backlog, bytes);
    }
    match put(stream, bytes) {
        Ok(count) => keep(backlog, &bytes[count..]),
        Err(_) => Err(Lost::Broken),
    }
}

/// Keeps bytes behind the others.
fn keep(backlog: &mut Backlog, bytes: &[u8]) -> Result<(), Lost>
    ensures kept { OnOk result (backlog.new ≡ backlog.old ++ bytes.now) }
    ensures lost { OnErr result (backlog.new ≡ backlog.old) }
{
    if backlog.add(bytes) {
        Ok(())
    } else {
        Err(Lost::Full)
    }
}

/// Writes what was kept, as far as it goes without waiting. None where the stream takes no more:
/// what was kept is let go then. Else whether something went out.
pub(crate) fn go_on<W: Write>(stream: &mut W, backlog: &mut Backlog) -> Option<bool>
    ensures same { IfSome result (λ _. Appends
        (append_known (W.contents stream.old) backlog.old)
        (append_known (W.contents stream.new) backlog.new) []) }
{
    match put(stream, backlog.rest()) {
        Ok(count) => {
            backlog.take(count);
            Some(count > 0)
        }
        Err(_) => {
            backlog.clear();
            None
        }
    }
}
