//! A Unix socket, and one file.
ghost use Rattle.std.specs.Prelude.{◌≡◌, ◌≤◌, ◌<◌, false, length, IfOk, OnErr, refl};
ghost use Rattle.ix_outside.specs.Contents.{Gives};
ghost use Rattle.ix_outside.specs.Counts.{Rose};
ghost use Rattle.ix_outside.specs.Crashes.{LeavesTheSame, OneCall, nothing_left, stretch_of};
ghost use Rattle.ix_outside.specs.Event.{FitsBuffer};
ghost use Rattle.ix_outside.specs.SiteState.{OnlyWire};
ghost use Rattle.ix_outside.specs.lemmas.Untold.{untold_is_lawful};
ghost use Rattle.ix_real.specs.inside.Piece.{IsServed};
ghost use Rattle.ix_real.specs.inside.Untold.{untold_site, with_wire_fault, with_send_fault};

use crate::clock::moment;
use crate::disk::Disk;
use crate::faults::count_fault;
use crate::wire;
use ix_outside::{DiskFailed, Event, EventKind, Gone, Site, WireFailed};
use std::fs::File;
use std::io::Write;
use std::marker::Model;
use std::net::Net;
use std::os::unix::net::{UnixListener, UnixStream};
use std::rt;
use std::rt::Clock;

/// A Unix socket that takes one connection after the other, and one file that no other process
/// writes meanwhile (`Disk`).
///
/// Every connection is connection 0. The next one is taken once the one before was closed, by its
/// peer or since a read of it failed; until then others wait. `next` and `send` wait for the peer,
/// however long it takes. A peer that is gone doesn't end the program: a send to it answers Gone.
#[derive(Drop)]
pub struct RealSite<'a, R> {
    rt: &'a R,
    listener: Option<UnixListener>,
    stream: Option<UnixStream>,
    disk: Disk<'a, R>,
    wire: u64,
    send: u64,
}

/// Contracts see the counts, and whether a file is attached.
impl<'a, R> Model for RealSite<'a, R> {
    ghost use Rattle.ix_real.specs.inside.Untold.{RealSiteState};

    ghost Value = { RealSiteState };

    ghost view = { λ site. record {
      counts = record { disk = site.disk.faults; wire = site.wire; send = site.send };
      attached = site.disk.attached;
    } };
}

impl<'a, R> RealSite<'a, R> {
    /// Nothing is listened to and no file is attached yet, and no call failed.
    pub fn new(rt: &'a R) -> Self
        ensures { result
            ≡ record { counts = record { disk = 0; wire = 0; send = 0 }; attached = false } }
    {
        RealSite {
            rt,
            listener: None,
            stream: None,
            disk: Disk::new(rt),
            wire: 0,
            send: 0,
        }
    }

    // Takes out the connection that is open, or takes the next one. None can be taken where nothing
    // is listened to, or where that failed.
    fn take_stream(&mut self) -> Option<UnixStream>
        ensures { self.new ≡ self.old }
    {
        match self.stream.take() {
            None => wire::accept(self.listener.as_ref()?).ok(),
            open => open,
        }
    }

    // A call of `listen` or `next` failed.
    fn wire_fault(&mut self) -> WireFailed
        ensures fault { self.new ≡ with_wire_fault self.old }
        ensures no_fewer { self.old.counts.wire ≤ self.new.counts.wire }
    {
        count_fault(&mut self.wire);
        WireFailed
    }

    // A send failed.
    fn send_fault(&mut self) -> Gone
        ensures fault { self.new ≡ with_send_fault self.old }
        ensures no_fewer { self.old.counts.send ≤ self.new.counts.send }
    {
        count_fault(&mut self.send);
        Gone
    }
}

impl<R: rt::Files<File = File> + Net + Clock> Site for RealSite<'_, R> {
    ghost state = { untold_site };

    ghost lawful = { λ _. untold_is_lawful _ refl refl };

    /// Makes the file of the socket. It fails where a file of this name is there already, as an
    /// earlier run leaves it.
    fn listen(&mut self, name: &str) -> Result<(), WireFailed> {
        match UnixListener::bind(self.rt, name) {
            Ok(listener) => {
                self.listener = Some(listener);
                Ok(())
            }
            Err(_) => Err(self.wire_fault()),
        }
    }

    /// The next event, always on connection 0 and never an `End`. It fails only where no connection
    /// can be taken any more.
    fn next(&mut self, buf: &mut [u8]) -> Result<Event, WireFailed>
        requires { 0 < length buf.old }
        ensures served { IfOk result (IsServed (length buf.old)) }

        ensures event { IfOk result (FitsBuffer (length buf.old)) }
        ensures failed { OnErr result (Rose self.old.counts.wire self.new.counts.wire) }
        ensures contents { Gives buf.new result
            (untold_site self.old).contents (untold_site self.new).contents }
        ensures now { LeavesTheSame nothing_left.now nothing_left.now }
        ensures call { OneCall (stretch_of untold_site (λ _. nothing_left) self.old self.new) }
        ensures rest { OnlyWire (untold_site self.old) (untold_site self.new) }
    {
        let Some(mut stream) = self.take_stream() else {
            return Err(self.wire_fault());
        };
        let kind = wire::receive(&mut stream, buf);
        if kind != EventKind::Closed {
            self.stream = Some(stream);
        }
        Ok(Event {
            conn: 0,
            moment: moment(self.rt.since_1970()),
            kind,
        })
    }

    fn send(&mut self, conn: u8, bytes: &[u8]) -> Result<(), Gone> {
        if let Some(stream) = &mut self.stream
            && conn == 0
            && stream.write_all(bytes).is_ok()
        {
            return Ok(());
        }
        Err(self.send_fault())
    }

    /// Fails also where another process has attached the file, which stays as it is.
    fn attach(&mut self, name: &str) -> Result<(), DiskFailed> {
        self.disk.attach(name)
    }

    fn length(&mut self) -> Result<u64, DiskFailed> {
        self.disk.length()
    }

    fn read_at(&mut self, at: u64, buf: &mut [u8]) -> Result<usize, DiskFailed> {
        self.disk.read_at(at, buf)
    }

    fn write_at(&mut self, at: u64, bytes: &[u8]) -> Result<(), DiskFailed> {
        self.disk.write_at(at, bytes)
    }

    fn cut(&mut self, length: u64) -> Result<(), DiskFailed> {
        self.disk.cut(length)
    }

    fn sync(&mut self) -> Result<(), DiskFailed> {
        self.disk.sync()
    }
}
