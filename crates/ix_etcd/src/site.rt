//! A Unix socket with many connections, and one file, of the disk or in etcd.
ghost use Rattle.std.specs.Prelude.{◌≡◌, ◌≤◌, ◌<◌, ◌-◌, refl, true, false, length, min, take, drop};
ghost use Rattle.std.specs.Prelude.{length as list_length, is_ok, IfOk, OnOk, OnErr};
ghost use Rattle.ix_outside.specs.Contents.{Gives, SendsBytes};
ghost use Rattle.ix_outside.specs.Counts.{CountsFault, Rose};
ghost use Rattle.ix_outside.specs.Crashes.{LeavesBy, LeavesTheSame, OneCall, Settles, nothing_left};
ghost use Rattle.ix_outside.specs.Crashes.{stretch_of};
ghost use Rattle.ix_outside.specs.Disk.{Attaches, Cuts, MakesFile, MaybeCut, OfFile, Stays, Torn};
ghost use Rattle.ix_outside.specs.Disk.{Writes};
ghost use Rattle.ix_outside.specs.Event.{FitsBuffer};
ghost use Rattle.ix_outside.specs.SiteState.{OnlyDisk, OnlySend, OnlyWire};
ghost use Rattle.ix_outside.specs.lemmas.Untold.{untold_is_lawful};
ghost use Rattle.ix_real.specs.inside.Untold.{with_wire_fault, with_send_fault};
ghost use Rattle.ix_etcd.specs.inside.Site.{untold_etcd, with_disk_fault, MayReply};

use crate::endpoints::read_endpoints;
use crate::gateway::{Gateway, Trouble};
use crate::keys::EtcdKeys;
use crate::owned::Owned;
use ix_blocks::{Blocks, Fault, Keys};
use ix_many::ManySite;
use ix_outside::{DiskFailed, Event, Gone, Site, WireFailed};
use ix_real::count_fault;
use std::alloc::Global;
use std::fs::File;
use std::marker::Model;
use std::net::{Net, TcpStream};
use std::rt;
use std::rt::Clock;

/// What a file's name begins with that etcd keeps.
const PREFIX: &str = "etcd:";

/// How often an attach is tried anew where another one comes between.
const ATTACHES: usize = 5;

/// The socket of a `ManySite`, and one file: of the disk, or kept by etcd where its name begins
/// with `etcd:`, under the keys that begin with the rest of the name.
///
/// A file of etcd is taken over from whoever has it. From then on no sync of that one is applied,
/// and no reply of it goes out: before a reply to an event, the members have agreed, since that
/// event came, that nobody else attached the file, so each reply was right at a moment since then.
/// Once that fails, no reply goes out any more and `next` fails.
///
/// A write or a cut of such a file takes place in memory, and a sync is one transaction of at most
/// 120 blocks of 4,096 bytes; a write that changes more since the last sync fails. Each request
/// ends within ten seconds and one step more.
#[derive(Drop)]
pub struct EtcdSite<'a, R> {
    alloc: Global,
    rt: &'a R,
    endpoints: &'a str,
    many: ManySite<'a, R>,
    owned: Option<Owned<EtcdKeys<'a, R>>>,
    trouble: Option<Trouble>,
    disk_faults: u64,
    wire_faults: u64,
    send_faults: u64,
}

/// Contracts see the counts, whether a file is attached, and whether one of etcd is, and is sure.
impl<'a, R> Model for EtcdSite<'a, R> {
    ghost use Rattle.std.specs.Prelude.{◌||◌, is_some};
    ghost use Rattle.ix_etcd.specs.inside.Site.{EtcdSiteState};
    ghost use Rattle.ix_etcd.specs.inside.Owner.{is_sure};

    ghost Value = { EtcdSiteState };

    ghost view = { λ site. record {
      site = record {
        counts = record {
          disk = site.disk_faults;
          wire = site.wire_faults;
          send = site.send_faults;
        };
        attached = site.many.site.attached || is_some site.owned;
      };
      keyed = is_some site.owned;
      sure = is_sure site.owned;
    } };
}

impl<'a, R> EtcdSite<'a, R> {
    /// Nothing is listened to and no file is attached yet, and no call failed. The members of etcd
    /// are those of a list with commas: each an address with a port, with `http://` in front of it
    /// or without. Where it isn't one, only an attach of a file of etcd fails.
    pub fn new(alloc: Global, rt: &'a R, endpoints: &'a str) -> Self
        ensures { result ≡ record {
          site = record { counts = record { disk = 0; wire = 0; send = 0 }; attached = false };
          keyed = false;
          sure = false;
        } }
    {
        EtcdSite {
            alloc,
            rt,
            endpoints,
            many: ManySite::new(alloc, rt),
            owned: None,
            trouble: None,
            disk_faults: 0,
            wire_faults: 0,
            send_faults: 0,
        }
    }

    // A call of the disk failed.
    fn disk_fault(&mut self) -> DiskFailed
        ensures fault { self.new ≡ record self.old { site = with_disk_fault self.old.site } }
        ensures no_fewer { self.old.site.counts.disk ≤ self.new.site.counts.disk }
    {
        count_fault(&mut self.disk_faults);
        DiskFailed
    }

    // A call of `listen` or `next` failed.
    fn wire_fault(&mut self) -> WireFailed
        ensures fault { self.new ≡ record self.old { site = with_wire_fault self.old.site } }
        ensures no_fewer { self.old.site.counts.wire ≤ self.new.site.counts.wire }
    {
        count_fault(&mut self.wire_faults);
        WireFailed
    }

    // A send failed.
    fn send_fault(&mut self) -> Gone
        ensures fault { self.new ≡ record self.old { site = with_send_fault self.old.site } }
        ensures no_fewer { self.old.site.counts.send ≤ self.new.site.counts.send }
    {
        count_fault(&mut self.send_faults);
        Gone
    }
}

/// Takes a file over. Where another attach, or a copy of this one, comes between, it is tried anew.
fn take_over<K: Keys>(alloc: Global, keys: &mut K) -> Result<Blocks, Fault> {
    for _ in 1..ATTACHES {
        match Blocks::attach(alloc, keys) {
            Err(Fault::Ended) => {}
            attached => return attached,
        }
    }
    Blocks::attach(alloc, keys)
}

/// Why a call of an owner failed, where the last request that failed did for this reason.
fn trouble_of(fault: Fault, asked: Option<Trouble>) -> Trouble {
    match fault {
        Fault::NoAnswer => asked.unwrap_or(Trouble::Silent),
        Fault::Ended => Trouble::Taken,
        Fault::Damaged => Trouble::Damaged,
        Fault::NoRoom(_) => Trouble::Full,
    }
}

impl<'a, R: rt::Files<File = File> + Net<Stream = TcpStream> + Clock> EtcdSite<'a, R> {
    /// Why the last call that asked etcd in vain did so; none where no call did. Of what etcd says
    /// nothing is told.
    pub fn trouble(&self) -> Option<Trouble> {
        self.trouble
    }

    // A call on the file of etcd failed.
    fn keyed_fault(&mut self, trouble: Trouble) -> DiskFailed
        ensures fault { self.new ≡ record self.old { site = with_disk_fault self.old.site } }
        ensures no_fewer { self.old.site.counts.disk ≤ self.new.site.counts.disk }
    {
        self.trouble = Some(trouble);
        self.disk_fault()
    }

    // Takes the file over whose keys begin with this name.
    fn own(&self, name: &str) -> Result<Owned<EtcdKeys<'a, R>>, Trouble>
        ensures { IfOk result (λ owned. owned.sure ≡ false) }
    {
        let Ok(Some(members)) = read_endpoints(self.alloc, self.endpoints) else {
            return Err(Trouble::Endpoints);
        };
        let Ok(name) = String::from_str(self.alloc, name) else {
            return Err(Trouble::Silent);
        };
        let gateway = Gateway::new(self.alloc, members);
        let mut keys = EtcdKeys::new(self.alloc, self.rt, gateway, name);
        match take_over(self.alloc, &mut keys) {
            Ok(blocks) => Ok(Owned::new(keys, blocks)),
            Err(fault) => Err(trouble_of(fault, keys.trouble())),
        }
    }
}

impl<R: rt::Files<File = File> + Net<Stream = TcpStream> + Clock> Site for EtcdSite<'_, R> {
    ghost state = { untold_etcd };

    ghost lawful = { λ _. untold_is_lawful _ refl refl };

    /// As that of `ManySite`.
    fn listen(&mut self, name: &str) -> Result<(), WireFailed> {
        match self.many.listen(name) {
            Ok(()) => Ok(()),
            Err(WireFailed) => Err(self.wire_fault()),
        }
    }

    /// As that of `ManySite`, and nothing is sure behind it. It fails also once it wasn't seen that
    /// nobody else attached the file of etcd.
    fn next(&mut self, buf: &mut [u8]) -> Result<Event, WireFailed>
        requires { 0 < length buf.old }
        ensures keyed { self.new.keyed ≡ self.old.keyed }
        ensures unsure { self.new.sure ≡ false }

        ensures event { IfOk result (FitsBuffer (length buf.old)) }
        ensures failed { OnErr result (Rose self.old.site.counts.wire self.new.site.counts.wire) }
        ensures contents { Gives buf.new result
            (untold_etcd self.old).contents (untold_etcd self.new).contents }
        ensures now { LeavesTheSame nothing_left.now nothing_left.now }
        ensures call { OneCall (stretch_of untold_etcd (λ _. nothing_left) self.old self.new) }
        ensures rest { OnlyWire (untold_etcd self.old) (untold_etcd self.new) }
    {
        if let Some(owned) = &mut self.owned
            && !owned.begin_event()
        {
            return Err(self.wire_fault());
        }
        match self.many.next(buf) {
            Ok(event) => Ok(event),
            Err(WireFailed) => Err(self.wire_fault()),
        }
    }

    /// As that of `ManySite`, if a reply may go out: no file of etcd is attached, or it is seen
    /// that nobody else attached it since the last event.
    fn send(&mut self, conn: u8, bytes: &[u8]) -> Result<(), Gone>
        ensures keyed { self.new.keyed ≡ self.old.keyed }
        ensures allowed { OnOk result (MayReply self.new) }

        ensures failed { OnErr result (Rose self.old.site.counts.send self.new.site.counts.send) }
        ensures contents { SendsBytes conn bytes.now result
            (untold_etcd self.old).contents (untold_etcd self.new).contents }
        ensures disk { OnOk result ((untold_etcd self.new).disk ≡ (untold_etcd self.old).disk) }
        ensures now { LeavesTheSame nothing_left.now nothing_left.now }
        ensures call { OneCall (stretch_of untold_etcd (λ _. nothing_left) self.old self.new) }
        ensures rest { OnlySend (untold_etcd self.old) (untold_etcd self.new) }
    {
        if let Some(owned) = &mut self.owned
            && !owned.may_reply()
        {
            self.trouble = Some(owned.keys.trouble().unwrap_or(Trouble::Taken));
            return Err(self.send_fault());
        }
        match self.many.send(conn, bytes) {
            Ok(()) => Ok(()),
            Err(Gone) => Err(self.send_fault()),
        }
    }

    /// Attaches the file of this name; an absent one is made with no bytes. One of etcd is taken
    /// over from whoever has it, and read whole into memory; one of the disk is refused where
    /// another process has attached it. After a fault none is attached.
    fn attach(&mut self, name: &str) -> Result<(), DiskFailed>
        requires { (untold_etcd self.old).attached ≡ false }
        ensures unsure { self.new.sure ≡ false }

        ensures failed { CountsFault result
            (untold_etcd self.old).counts.disk (untold_etcd self.new).counts.disk }
        ensures attached { (untold_etcd self.new).attached ≡ is_ok result }
        ensures file { Attaches name.now result (untold_etcd self.new).tick
            (untold_etcd self.old).disk (untold_etcd self.new).disk }
        ensures now { Settles result (untold_etcd self.new).disk
            nothing_left.now nothing_left.now }
        ensures call { OneCall (stretch_of untold_etcd (λ _. nothing_left) self.old self.new) }
        ensures rest { OnlyDisk (untold_etcd self.old) (untold_etcd self.new) }
    {
        let Some(prefix) = name.strip_prefix(PREFIX) else {
            return match self.many.attach(name) {
                Ok(()) => Ok(()),
                Err(DiskFailed) => Err(self.disk_fault()),
            };
        };
        match self.own(prefix) {
            Ok(owned) => {
                self.owned = Some(owned);
                Ok(())
            }
            Err(trouble) => Err(self.keyed_fault(trouble)),
        }
    }

    fn length(&mut self) -> Result<u64, DiskFailed> {
        if let Some(owned) = &self.owned {
            return Ok(owned.blocks.length() as u64);
        }
        match self.many.length() {
            Ok(length) => Ok(length),
            Err(DiskFailed) => Err(self.disk_fault()),
        }
    }

    fn read_at(&mut self, at: u64, buf: &mut [u8]) -> Result<usize, DiskFailed> {
        if let Some(owned) = &self.owned {
            return Ok(owned.blocks.read_at(at as usize, buf));
        }
        match self.many.read_at(at, buf) {
            Ok(count) => Ok(count),
            Err(DiskFailed) => Err(self.disk_fault()),
        }
    }

    fn write_at(&mut self, at: u64, bytes: &[u8]) -> Result<(), DiskFailed> {
        if let Some(owned) = &mut self.owned {
            if at <= owned.blocks.length() as u64
                && owned.blocks.write_at(at as usize, bytes).is_ok()
            {
                return Ok(());
            }
            return Err(self.keyed_fault(Trouble::Full));
        }
        match self.many.write_at(at, bytes) {
            Ok(()) => Ok(()),
            Err(DiskFailed) => Err(self.disk_fault()),
        }
    }

    fn cut(&mut self, length: u64) -> Result<(), DiskFailed> {
        if let Some(owned) = &mut self.owned {
            if length <= owned.blocks.length() as u64 && owned.blocks.cut(length as usize).is_ok() {
                return Ok(());
            }
            return Err(self.keyed_fault(Trouble::Full));
        }
        match self.many.cut(length) {
            Ok(()) => Ok(()),
            Err(DiskFailed) => Err(self.disk_fault()),
        }
    }

    fn sync(&mut self) -> Result<(), DiskFailed>
        requires { (untold_etcd self.old).attached ≡ true }
        ensures keyed { self.new.keyed ≡ self.old.keyed }
        ensures sure { OnOk result (MayReply self.new) }
        ensures unsure { OnErr result (self.new.sure ≡ false) }

        ensures failed { CountsFault result
            (untold_etcd self.old).counts.disk (untold_etcd self.new).counts.disk }
        ensures attached { (untold_etcd self.new).attached ≡ true }
        ensures file { MakesFile Stays (untold_etcd self.old).disk (untold_etcd self.new).disk }
        ensures now { Settles result (untold_etcd self.new).disk
            nothing_left.now nothing_left.now }
        ensures call { OneCall (stretch_of untold_etcd (λ _. nothing_left) self.old self.new) }
        ensures rest { OnlyDisk (untold_etcd self.old) (untold_etcd self.new) }
    {
        if let Some(owned) = &mut self.owned {
            return match owned.sync(self.alloc) {
                Ok(()) => Ok(()),
                Err(fault) => {
                    let trouble = trouble_of(fault, owned.keys.trouble());
                    Err(self.keyed_fault(trouble))
                }
            };
        }
        match self.many.sync() {
            Ok(()) => Ok(()),
            Err(DiskFailed) => Err(self.disk_fault()),
        }
    }
}
