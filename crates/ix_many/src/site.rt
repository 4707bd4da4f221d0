//! A Unix socket with many connections, and one file.
ghost use Rattle.std.specs.Prelude.{◌≡◌, ◌≤◌, ◌<◌, ◌-◌, [], refl, true, false, length, min, take};
ghost use Rattle.std.specs.Prelude.{drop};
ghost use Rattle.std.specs.Prelude.{length as list_length};
ghost use Rattle.std.specs.Prelude.{is_ok, IfOk, OnOk, OnErr};
ghost use Rattle.ix_outside.specs.Contents.{Gives, Listens, SendsBytes};
ghost use Rattle.ix_outside.specs.Counts.{CountsFault, Rose};
ghost use Rattle.ix_outside.specs.Crashes.{LeavesBy, LeavesTheSame, OneCall, Settles, nothing_left};
ghost use Rattle.ix_outside.specs.Crashes.{stretch_of};
ghost use Rattle.ix_outside.specs.Disk.{Attaches, Cuts, MakesFile, MaybeCut, OfFile, Stays, Torn};
ghost use Rattle.ix_outside.specs.Disk.{Writes};
ghost use Rattle.ix_outside.specs.Event.{FitsBuffer};
ghost use Rattle.ix_outside.specs.SiteState.{OnlyDisk, OnlySend, OnlyWire};
ghost use Rattle.ix_outside.specs.lemmas.Untold.{untold_is_lawful};
ghost use Rattle.ix_real.specs.inside.Untold.{untold_site, with_wire_fault, with_send_fault};
ghost use Rattle.ix_many.specs.inside.Site.{ComesNumbered, ListensAnew, untold_many};

use crate::wire::Wire;
use ix_outside::{DiskFailed, Event, Gone, Site, WireFailed};
use ix_real::{Disk, count_fault, moment};
use std::alloc::Global;
use std::fs::File;
use std::io::ErrorKind;
use std::marker::Model;
use std::net::Net;
use std::rt::Clock;
use std::{io, rt};

/// A Unix socket that serves up to 64 connections at once, and one file that no other process
/// writes meanwhile (`Disk`).
///
/// A connection has a number from 0 to 63 from its first event to its Closed; then another may have
/// it. The events come in rounds: each connection on which something is there has one of at most
/// 512 bytes in a round. The connection that was sent a reply that begins with `granted ` comes
/// next, out of turn, if its event comes in time: holders are waited for at most 50 ms in a round.
///
/// No call waits for a peer. What a peer doesn't take is kept, up to 1 MiB, and sent in order;
/// meanwhile nothing of its connection is read. Where that is too much, where there is no memory,
/// or where the peer is gone, `send` answers Gone. A peer that takes nothing for 30 s is closed.
/// While 64 connections are open others wait to be taken, and the one that was silent longest is
/// closed, if it was so for 60 s. All that the wire needs but what it keeps for peers is made by
/// `listen`.
#[derive(Drop)]
pub struct ManySite<'a, R> {
    alloc: Global,
    rt: &'a R,
    disk: Disk<'a, R>,
    wire: Option<Wire>,
    wire_faults: u64,
    send_faults: u64,
}

/// Contracts see the counts, whether a file is attached, and which stream has which number.
impl<'a, R> Model for ManySite<'a, R> {
    ghost use Rattle.ix_many.specs.inside.Site.{ManySiteState, streams_of};

    ghost Value = { ManySiteState };

    ghost view = { λ site. record {
      site = record {
        counts = record {
          disk = site.disk.faults;
          wire = site.wire_faults;
          send = site.send_faults;
        };
        attached = site.disk.attached;
      };
      streams = streams_of site.wire;
    } };
}

impl<'a, R> ManySite<'a, R> {
    /// Nothing is listened to and no file is attached yet, and no call failed.
    pub fn new(alloc: Global, rt: &'a R) -> Self
        ensures { result ≡ record {
          site = record { counts = record { disk = 0; wire = 0; send = 0 }; attached = false };
          streams = [];
        } }
    {
        ManySite {
            alloc,
            rt,
            disk: Disk::new(rt),
            wire: None,
            wire_faults: 0,
            send_faults: 0,
        }
    }

    // A call of `listen` or `next` failed.
    fn wire_fault(&mut self) -> WireFailed
        ensures fault { self.new ≡ record self.old { site = with_wire_fault self.old.site } }
        ensures no_fewer { self.old.site.counts.wire ≤ self.new.site.counts.wire }
    {
        count_fault(&mut self.wire_faults);
        WireFailed
    }

    // A send failed.
    fn send_fault(&mut self) -> Gone
        ensures fault { self.new ≡ record self.old { site = with_send_fault self.old.site } }
        ensures no_fewer { self.old.site.counts.send ≤ self.new.site.counts.send }
    {
        count_fault(&mut self.send_faults);
        Gone
    }
}

impl<R: rt::Files<File = File> + Net + Clock> Site for ManySite<'_, R> {
    ghost state = { untold_many };

    ghost lawful = { λ _. untold_is_lawful _ refl refl };

    /// Makes the file of the socket. It fails where a file of this name is there already, as an
    /// earlier run leaves it, and then changes nothing. Behind it no number has a stream.
    fn listen(&mut self, name: &str) -> Result<(), WireFailed>
        ensures numbers { ListensAnew result self.old.streams self.new.streams }

        ensures failed { OnErr result (Rose self.old.site.counts.wire self.new.site.counts.wire) }
        ensures contents { Listens name.now result
            (untold_many self.old).contents (untold_many self.new).contents }
        ensures now { LeavesTheSame nothing_left.now nothing_left.now }
        ensures call { OneCall (stretch_of untold_many (λ _. nothing_left) self.old self.new) }
        ensures rest { OnlyWire (untold_many self.old) (untold_many self.new) }
    {
        match Wire::listen(self.alloc, self.rt, name) {
            Ok(wire) => {
                self.wire = Some(wire);
                Ok(())
            }
            Err(_) => Err(self.wire_fault()),
        }
    }

    /// The next event, never an `End`. Each stream keeps its number, but that of a connection that
    /// is Closed, whose number is free then.
    fn next(&mut self, buf: &mut [u8]) -> Result<Event, WireFailed>
        requires { 0 < length buf.old }
        ensures numbers { ComesNumbered (length buf.old) result self.old.streams self.new.streams }

        ensures event { IfOk result (FitsBuffer (length buf.old)) }
        ensures failed { OnErr result (Rose self.old.site.counts.wire self.new.site.counts.wire) }
        ensures contents { Gives buf.new result
            (untold_many self.old).contents (untold_many self.new).contents }
        ensures now { LeavesTheSame nothing_left.now nothing_left.now }
        ensures call { OneCall (stretch_of untold_many (λ _. nothing_left) self.old self.new) }
        ensures rest { OnlyWire (untold_many self.old) (untold_many self.new) }
    {
        let came = match &mut self.wire {
            Some(wire) => wire.next(self.rt, buf),
            None => Err(io::Error::from(ErrorKind::NotConnected)),
        };
        match came {
            Ok((place, kind)) => Ok(Event {
                conn: place as u8,
                moment: moment(self.rt.since_1970()),
                kind,
            }),
            Err(_) => Err(self.wire_fault()),
        }
    }

    /// Sends the bytes, or keeps them until the peer takes them. Each stream keeps its number.
    fn send(&mut self, conn: u8, bytes: &[u8]) -> Result<(), Gone>
        ensures numbers { self.new.streams ≡ self.old.streams }

        ensures failed { OnErr result (Rose self.old.site.counts.send self.new.site.counts.send) }
        ensures contents { SendsBytes conn bytes.now result
            (untold_many self.old).contents (untold_many self.new).contents }
        ensures disk { OnOk result ((untold_many self.new).disk ≡ (untold_many self.old).disk) }
        ensures now { LeavesTheSame nothing_left.now nothing_left.now }
        ensures call { OneCall (stretch_of untold_many (λ _. nothing_left) self.old self.new) }
        ensures rest { OnlySend (untold_many self.old) (untold_many self.new) }
    {
        if let Some(wire) = &mut self.wire
            && conn < 64
            && wire.send(self.rt, usize::from(conn), bytes)
        {
            return Ok(());
        }
        Err(self.send_fault())
    }

    fn attach(&mut self, name: &str) -> Result<(), DiskFailed>
        requires { (untold_many self.old).attached ≡ false }
        ensures numbers { self.new.streams ≡ self.old.streams }

        ensures failed { CountsFault result
            (untold_many self.old).counts.disk (untold_many self.new).counts.disk }
        ensures attached { (untold_many self.new).attached ≡ is_ok result }
        ensures file { Attaches name.now result (untold_many self.new).tick
            (untold_many self.old).disk (untold_many self.new).disk }
        ensures now { Settles result (untold_many self.new).disk
            nothing_left.now nothing_left.now }
        ensures call { OneCall (stretch_of untold_many (λ _. nothing_left) self.old self.new) }
        ensures rest { OnlyDisk (untold_many self.old) (untold_many self.new) }
    {
        self.disk.attach(name)
    }

    fn length(&mut self) -> Result<u64, DiskFailed>
        requires { (untold_many self.old).attached ≡ true }
        ensures numbers { self.new.streams ≡ self.old.streams }

        ensures failed { CountsFault result
            (untold_many self.old).counts.disk (untold_many self.new).counts.disk }
        ensures attached { (untold_many self.new).attached ≡ true }
        ensures value { IfOk result
            (λ count. OfFile (λ file. count ≡ length file) (untold_many self.old).disk) }
        ensures file { MakesFile Stays (untold_many self.old).disk (untold_many self.new).disk }
        ensures now { LeavesTheSame nothing_left.now nothing_left.now }
        ensures call { OneCall (stretch_of untold_many (λ _. nothing_left) self.old self.new) }
        ensures rest { OnlyDisk (untold_many self.old) (untold_many self.new) }
    {
        self.disk.length()
    }

    fn read_at(&mut self, at: u64, buf: &mut [u8]) -> Result<usize, DiskFailed>
        requires { (untold_many self.old).attached ≡ true }
        ensures numbers { self.new.streams ≡ self.old.streams }

        ensures within { IfOk result (λ count. count ≤ length buf.old) }
        ensures failed { CountsFault result
            (untold_many self.old).counts.disk (untold_many self.new).counts.disk }
        ensures attached { (untold_many self.new).attached ≡ true }
        ensures value { IfOk result (λ count. OfFile
            (λ file. count ≡ min (length buf.old) (length file - at)) (untold_many self.old).disk) }
        ensures bytes { IfOk result (λ count. OfFile
            (λ file. take count buf.new ≡ take count (drop at file)) (untold_many self.old).disk) }
        ensures file { MakesFile Stays (untold_many self.old).disk (untold_many self.new).disk }
        ensures now { LeavesTheSame nothing_left.now nothing_left.now }
        ensures call { OneCall (stretch_of untold_many (λ _. nothing_left) self.old self.new) }
        ensures rest { OnlyDisk (untold_many self.old) (untold_many self.new) }
    {
        self.disk.read_at(at, buf)
    }

    fn write_at(&mut self, at: u64, bytes: &[u8]) -> Result<(), DiskFailed>
        requires attached { (untold_many self.old).attached ≡ true }
        requires place { OfFile (λ file. at ≤ length file) (untold_many self.old).disk }
        ensures numbers { self.new.streams ≡ self.old.streams }

        ensures failed { CountsFault result
            (untold_many self.old).counts.disk (untold_many self.new).counts.disk }
        ensures attached { (untold_many self.new).attached ≡ true }
        ensures file { Writes at bytes.now result
            (untold_many self.old).disk (untold_many self.new).disk }
        ensures now { LeavesBy (Torn at (length bytes.now)) result
            nothing_left.now nothing_left.now }
        ensures call { OneCall (stretch_of untold_many (λ _. nothing_left) self.old self.new) }
        ensures rest { OnlyDisk (untold_many self.old) (untold_many self.new) }
    {
        self.disk.write_at(at, bytes)
    }

    fn cut(&mut self, length: u64) -> Result<(), DiskFailed>
        requires attached { (untold_many self.old).attached ≡ true }
        requires shorter { OfFile (λ file. length ≤ list_length file) (untold_many self.old).disk }
        ensures numbers { self.new.streams ≡ self.old.streams }

        ensures failed { CountsFault result
            (untold_many self.old).counts.disk (untold_many self.new).counts.disk }
        ensures attached { (untold_many self.new).attached ≡ true }
        ensures file { Cuts length result
            (untold_many self.old).disk (untold_many self.new).disk }
        ensures now { LeavesBy (MaybeCut length) result nothing_left.now nothing_left.now }
        ensures call { OneCall (stretch_of untold_many (λ _. nothing_left) self.old self.new) }
        ensures rest { OnlyDisk (untold_many self.old) (untold_many self.new) }
    {
        self.disk.cut(length)
    }

    fn sync(&mut self) -> Result<(), DiskFailed>
        requires { (untold_many self.old).attached ≡ true }
        ensures numbers { self.new.streams ≡ self.old.streams }

        ensures failed { CountsFault result
            (untold_many self.old).counts.disk (untold_many self.new).counts.disk }
        ensures attached { (untold_many self.new).attached ≡ true }
        ensures file { MakesFile Stays (untold_many self.old).disk (untold_many self.new).disk }
        ensures now { Settles result (untold_many self.new).disk
            nothing_left.now nothing_left.now }
        ensures call { OneCall (stretch_of untold_many (λ _. nothing_left) self.old self.new) }
        ensures rest { OnlyDisk (untold_many self.old) (untold_many self.new) }
    {
        self.disk.sync()
    }
}
