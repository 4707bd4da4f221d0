//! A site in memory.
ghost use Rattle.std.specs.Prelude.{◌≡◌, ◌≤◌, ◌<◌, ◌+◌, ◌-◌, ◌*◌, ◌&&◌, ◌++◌, [], ◌∷◌};
ghost use Rattle.std.specs.Prelude.{length as list_length, nat_le, true, false, min, length, take};
ghost use Rattle.std.specs.Prelude.{drop, not, is_ok, slice_get, Some, IfOk, OnOk, OnErr};
ghost use Rattle.ix_outside.specs.Contents.{piece_of, with_pair, Listens, Gives, SendsBytes};
ghost use Rattle.ix_outside.specs.Counts.{CountsFault, Rose};
ghost use Rattle.ix_outside.specs.Crashes.{OneCall, LeavesTheSame, LeavesBy, Settles};
ghost use Rattle.ix_outside.specs.Crashes.{stretch_of};
ghost use Rattle.ix_outside.specs.Disk.{OfFile, MakesFile, Stays, Torn, MaybeCut};
ghost use Rattle.ix_outside.specs.Disk.{Writes, Cuts, Attaches};
ghost use Rattle.ix_outside.specs.Event.{FitsBuffer};
ghost use Rattle.ix_outside.specs.SiteState.{OnlyDisk, OnlyWire, OnlySend};
ghost use Rattle.ix_memory.specs.inside.NextEvent.{next_event, then_coming};
ghost use Rattle.ix_memory.specs.Plan.{fails_at, is_full};
ghost use Rattle.ix_memory.specs.inside.Adding.{with_failing};
ghost use Rattle.ix_outside.specs.Contents.{with_heard};
ghost use Rattle.ix_memory.specs.inside.MemorySiteState.{fresh_site, state_of, crashes_of, called};
ghost use Rattle.ix_memory.specs.inside.MemorySiteState.{wire_failed, disk_failed, send_failed};
ghost use Rattle.ix_memory.specs.inside.MemorySiteState.{half_sent, half_written, read_into};
ghost use Rattle.ix_memory.specs.inside.MemorySiteState.{written};
ghost use Rattle.ix_memory.specs.inside.CanCome.{CanAllCome, events_beside};
ghost use Rattle.ix_memory.specs.declared.past.Effect.TheVariants.{Kept, Wrote, Cut};
ghost use Rattle.ix_memory.specs.declared.past.Effect.TheVariants.{Synced, Attached};
ghost use Rattle.ix_memory.specs.lemmas.Lawful.{memory_is_lawful};

use crate::events::Events;
use crate::past::{Effect, Past};
use crate::plan::{Fate, Plan};
use crate::sent::Sent;
use crate::{MOST_ADDED, image};
use ix_outside::{DiskFailed, Event, Gone, Site, WireFailed};
use std::alloc::{AllocError, Global};
use std::marker::Model;

/// The cost of a call that carries no bytes and no name; their length is added to it.
const LEAST_COST: usize = 16;

/// Connections and one file in memory.
///
/// Each call has a cost: `send` and `write_at` cost 16 and the number of their bytes, `listen` and
/// `attach` 16 and the number of their name's bytes, and every other call 16. A call fails exactly
/// where its number stands among those that are told to fail, where as many calls as the fuse says
/// were made, or where its cost and that of all calls before it are together above the room. One
/// that fails by the room changes nothing but its count of faults. `write_at` beyond the end and
/// `cut` to more than the length fail too.
///
/// Each call is a tick. A crash may leave all that the trait allows: any bytes in the range of a
/// write since the last sync, and each cut since then taken or not.
#[derive(Drop)]
pub struct MemorySite {
    plan: Plan,
    events: Events,
    sent: Sent,
    image: Vec<u8>,
    attached: bool,
    past: Past,
    told: bool,
    longest_read: usize,
    disk: u64,
    wire: u64,
    send: u64,
}

impl Model for MemorySite {
    ghost use Rattle.std.specs.Prelude.{◌-◌, vec_capacity, vec_len};
    ghost use Rattle.ix_memory.specs.inside.Fate.{room_of};
    ghost use Rattle.ix_memory.specs.inside.Room.{HasRoom};
    ghost use Rattle.ix_memory.specs.inside.MemorySiteState.{MemorySiteState};

    ghost Value = { MemorySiteState };

    ghost view = { λ s. record {
      plan = s.plan;
      coming = s.events.coming;
      last = s.events.last;
      given = s.events.given;
      sends = s.sent.sends;
      image = s.image.items;
      attached = s.attached;
      name = s.sent.name;
      past = s.past;
      told = s.told;
      longest_read = s.longest_read;
      counts = record { disk = s.disk; wire = s.wire; send = s.send };
    } };

    ghost invariant = { λ s.
        HasRoom (room_of s.plan) s.sent.spare_bytes s.sent.spare_records s.events.spare
        (vec_capacity s.image - vec_len s.image) };
}

impl MemorySite {
    /// A site with this file, not attached yet, that gives these events, each beside its bytes. The
    /// calls whose numbers stand in `fail` are to fail, the first call being number 0, those from
    /// the number `fuse` on, and those for which there is no room. It takes all its memory.
    pub fn new(
        alloc: Global,
        mut image: Vec<u8>,
        events: Vec<(Event, Vec<u8>)>,
        room: usize,
        fail: Vec<u64>,
        fuse: Option<u64>,
    ) -> Result<MemorySite, AllocError>
        requires { CanAllCome (events_beside events.items) }
        ensures { IfOk result
            (λ s. s ≡ fresh_site image.items (events_beside events.items) room fail.items fuse) }
    {
        image.reserve(room)?;
        let records = room / LEAST_COST;
        Ok(MemorySite {
            plan: Plan::new(alloc, fail, fuse, room)?,
            events: Events::new(alloc, &events, records)?,
            sent: Sent::new(alloc, room, records)?,
            image,
            attached: false,
            past: Past::new(),
            told: true,
            longest_read: 0,
            disk: 0,
            wire: 0,
            send: 0,
        })
    }

    /// Lets the call of this number fail too, whether it is still to come or not. At most
    /// `MOST_ADDED` numbers can be added. It takes no memory, and is no call of the trait.
    pub fn fail_next(&mut self, call: u64)
        requires { self.old.plan.added < MOST_ADDED }
        ensures { self.new ≡ record self.old { plan = with_failing call self.old.plan } }
    {
        self.plan.fail_next(call);
    }

    /// How many calls of the trait were made, up to 2^64 - 1.
    pub fn calls(&self) -> u64
        ensures { result ≡ self.now.plan.calls.number }
    {
        self.plan.calls()
    }

    /// How many sends there were, those among them that failed as they were told to.
    pub fn sent_len(&self) -> usize
        ensures { result ≡ length self.now.sends.sent }
    {
        self.sent.len()
    }

    /// The connection and the bytes of a send; of one that failed, the first half of its bytes.
    pub fn sent_at(&self, index: usize) -> (u8, &[u8])
        requires { index < length self.now.sends.sent }
        ensures { slice_get self.now.sends.sent index
            ≡ Some (record { conn = result.0; bytes = result.1.now }) }
    {
        self.sent.at(index)
    }

    /// The length of the longest buffer that was handed to `read_at` so far, 0 before the first.
    pub fn longest_read(&self) -> usize
        ensures { result ≡ self.now.longest_read }
    {
        self.longest_read
    }

    /// The file, as a read gives it.
    pub fn image(&self) -> &[u8]
        ensures { result.now ≡ self.now.image }
    {
        self.image.as_slice()
    }
}

impl Site for MemorySite {
    ghost state = { state_of };

    ghost crashes = { crashes_of };

    ghost lawful = { memory_is_lawful };

    /// The name is heard. It costs 16 and the number of its bytes.
    fn listen(&mut self, name: &str) -> Result<(), WireFailed>
        ensures exactly { is_ok result ≡ not (fails_at self.old.plan (16 + length name.now)) }
        ensures ok { OnOk result (self.new
            ≡ record (called (16 + length name.now) Kept self.old) {
              sends = with_heard name.now self.old.sends;
            }) }
        ensures err { OnErr result (self.new
            ≡ wire_failed (called (16 + length name.now) Kept self.old)) }

        ensures failed { OnErr result (Rose self.old.counts.wire self.new.counts.wire) }
        ensures contents { Listens name.now result
            (state_of self.old).contents (state_of self.new).contents }
        ensures now { LeavesTheSame (crashes_of self.old).now (crashes_of self.new).now }
        ensures call { OneCall (stretch_of state_of crashes_of self.old self.new) }
        ensures rest { OnlyWire (state_of self.old) (state_of self.new) }
    {
        self.past.add(Effect::Kept, &self.image, &self.sent);
        match self.plan.make(LEAST_COST + name.len()) {
            Fate::Works => {
                self.sent.hear(name.as_bytes());
                Ok(())
            }
            Fate::Fails | Fate::Full => {
                self.wire = self.wire.saturating_add(1);
                Err(WireFailed)
            }
        }
    }

    /// The front of the next event to come, as much of its bytes as the buffer takes, with the rest
    /// of them left for further calls; after the last event the end, at that event's moment, or 0
    /// where there was none. It costs 16.
    fn next(&mut self, buf: &mut [u8]) -> Result<Event, WireFailed>
        requires { 0 < length buf.old }
        ensures exactly { is_ok result ≡ not (fails_at self.old.plan 16) }
        ensures next { IfOk result
            (λ event. record { event = event; bytes = piece_of event.kind buf.new }
            ≡ next_event (length buf.old) self.old.last self.old.coming) }
        ensures ok { IfOk result (λ event. self.new ≡ record (called 16 Kept self.old) {
          coming = then_coming (length buf.old) self.old.coming;
          given = self.old.given
              ++ record { event = event; bytes = piece_of event.kind buf.new } ∷ [];
        }) }
        ensures err { OnErr result (self.new ≡ wire_failed (called 16 Kept self.old)) }

        ensures event { IfOk result (FitsBuffer (length buf.old)) }
        ensures failed { OnErr result (Rose self.old.counts.wire self.new.counts.wire) }
        ensures contents { Gives buf.new result
            (state_of self.old).contents (state_of self.new).contents }
        ensures now { LeavesTheSame (crashes_of self.old).now (crashes_of self.new).now }
        ensures call { OneCall (stretch_of state_of crashes_of self.old self.new) }
        ensures rest { OnlyWire (state_of self.old) (state_of self.new) }
    {
        self.past.add(Effect::Kept, &self.image, &self.sent);
        match self.plan.make(LEAST_COST) {
            Fate::Works => Ok(self.events.next(buf)),
            Fate::Fails | Fate::Full => {
                self.wire = self.wire.saturating_add(1);
                Err(WireFailed)
            }
        }
    }

    /// The bytes are sent. One that fails as it is told to sends the first half of them, rounded
    /// down; for one that fails by the room the site tells no contents any more. It costs 16 and
    /// the number of its bytes.
    fn send(&mut self, conn: u8, bytes: &[u8]) -> Result<(), Gone>
        ensures exactly { is_ok result ≡ not (fails_at self.old.plan (16 + length bytes.now)) }
        ensures ok { OnOk result (self.new
            ≡ record (called (16 + length bytes.now) Kept self.old) {
              sends = with_pair conn bytes.now self.old.sends;
            }) }
        ensures err { OnErr result
            (self.new ≡ send_failed (half_sent (is_full self.old.plan (16 + length bytes.now))
            conn bytes.now (called (16 + length bytes.now) Kept self.old))) }

        ensures failed { OnErr result (Rose self.old.counts.send self.new.counts.send) }
        ensures contents { SendsBytes conn bytes.now result
            (state_of self.old).contents (state_of self.new).contents }
        ensures disk { OnOk result ((state_of self.new).disk ≡ (state_of self.old).disk) }
        ensures now { LeavesTheSame (crashes_of self.old).now (crashes_of self.new).now }
        ensures call { OneCall (stretch_of state_of crashes_of self.old self.new) }
        ensures rest { OnlySend (state_of self.old) (state_of self.new) }
    {
        self.past.add(Effect::Kept, &self.image, &self.sent);
        match self.plan.make(LEAST_COST + bytes.len()) {
            Fate::Works => {
                self.sent.send(conn, bytes);
                return Ok(());
            }
            Fate::Fails => self.sent.send_gone(conn, &bytes[..bytes.len() / 2]),
            Fate::Full => self.told = false,
        }
        self.send = self.send.saturating_add(1);
        Err(Gone)
    }

    /// The file is attached under this name, whatever it is. It costs 16 and the number of the
    /// name's bytes.
    fn attach(&mut self, name: &str) -> Result<(), DiskFailed>
        requires { self.old.attached ≡ false }
        ensures exactly { is_ok result ≡ not (fails_at self.old.plan (16 + length name.now)) }
        ensures ok { OnOk result (self.new
            ≡ record (called (16 + length name.now) Attached self.old) {
              attached = true;
              name = name.now;
            }) }
        ensures err { OnErr result (self.new
            ≡ disk_failed (called (16 + length name.now) Kept self.old)) }

        ensures failed { CountsFault result self.old.counts.disk self.new.counts.disk }
        ensures attached { self.new.attached ≡ is_ok result }
        ensures file { Attaches name.now result (state_of self.new).tick
            (state_of self.old).disk (state_of self.new).disk }
        ensures now { Settles result (state_of self.new).disk
            (crashes_of self.old).now (crashes_of self.new).now }
        ensures call { OneCall (stretch_of state_of crashes_of self.old self.new) }
        ensures rest { OnlyDisk (state_of self.old) (state_of self.new) }
    {
        let fate = self.plan.make(LEAST_COST + name.len());
        self.past
            .add(Effect::Attached.if_works(fate), &self.image, &self.sent);
        match fate {
            Fate::Works => {
                self.sent.open(name.as_bytes());
                self.attached = true;
                Ok(())
            }
            Fate::Fails | Fate::Full => {
                self.disk = self.disk.saturating_add(1);
                Err(DiskFailed)
            }
        }
    }

    /// How many bytes the file has. It costs 16.
    fn length(&mut self) -> Result<u64, DiskFailed>
        requires { self.old.attached ≡ true }
        ensures exactly { is_ok result ≡ not (fails_at self.old.plan 16) }
        ensures count { IfOk result (λ count. count ≡ length self.old.image) }
        ensures ok { OnOk result (self.new ≡ called 16 Kept self.old) }
        ensures err { OnErr result (self.new ≡ disk_failed (called 16 Kept self.old)) }

        ensures failed { CountsFault result self.old.counts.disk self.new.counts.disk }
        ensures attached { self.new.attached ≡ true }
        ensures value { IfOk result
            (λ count. OfFile (λ file. count ≡ length file) (state_of self.old).disk) }
        ensures file { MakesFile Stays (state_of self.old).disk (state_of self.new).disk }
        ensures now { LeavesTheSame (crashes_of self.old).now (crashes_of self.new).now }
        ensures call { OneCall (stretch_of state_of crashes_of self.old self.new) }
        ensures rest { OnlyDisk (state_of self.old) (state_of self.new) }
    {
        self.past.add(Effect::Kept, &self.image, &self.sent);
        match self.plan.make(LEAST_COST) {
            Fate::Works => Ok(self.image.len() as u64),
            Fate::Fails | Fate::Full => {
                self.disk = self.disk.saturating_add(1);
                Err(DiskFailed)
            }
        }
    }

    /// The bytes of the file from `at` on, as many as the buffer takes. It costs 16.
    fn read_at(&mut self, at: u64, buf: &mut [u8]) -> Result<usize, DiskFailed>
        requires { self.old.attached ≡ true }
        ensures exactly { is_ok result ≡ not (fails_at self.old.plan 16) }
        ensures count { IfOk result
            (λ count. count ≡ min (length buf.old) (length self.old.image - at)) }
        ensures read { IfOk result
            (λ count. take count buf.new ≡ take count (drop at self.old.image)) }
        ensures behind { IfOk result (λ count. drop count buf.new ≡ drop count buf.old) }
        ensures ok { OnOk result (self.new ≡ read_into (length buf.old) self.old) }
        ensures err { OnErr result (self.new ≡ disk_failed (read_into (length buf.old) self.old)) }

        ensures failed { CountsFault result self.old.counts.disk self.new.counts.disk }
        ensures attached { self.new.attached ≡ true }
        ensures value { IfOk result (λ count. OfFile
            (λ file. count ≡ min (length buf.old) (length file - at)) (state_of self.old).disk) }
        ensures bytes { IfOk result (λ count. OfFile
            (λ file. take count buf.new ≡ take count (drop at file)) (state_of self.old).disk) }
        ensures file { MakesFile Stays (state_of self.old).disk (state_of self.new).disk }
        ensures now { LeavesTheSame (crashes_of self.old).now (crashes_of self.new).now }
        ensures call { OneCall (stretch_of state_of crashes_of self.old self.new) }
        ensures rest { OnlyDisk (state_of self.old) (state_of self.new) }
    {
        self.longest_read = self.longest_read.max(buf.len());
        self.past.add(Effect::Kept, &self.image, &self.sent);
        match self.plan.make(LEAST_COST) {
            Fate::Works => Ok(image::read(&self.image, at, buf)),
            Fate::Fails | Fate::Full => {
                self.disk = self.disk.saturating_add(1);
                Err(DiskFailed)
            }
        }
    }

    /// The bytes are written. One that fails as it is told to writes the first half of
    /// them, rounded down; one beyond the end fails and writes nothing. It costs 16 and the
    /// number of its bytes.
    fn write_at(&mut self, at: u64, bytes: &[u8]) -> Result<(), DiskFailed>
        requires { self.old.attached ≡ true }
        ensures exactly { is_ok result
            ≡ (not (fails_at self.old.plan (16 + length bytes.now))
            && nat_le at (length self.old.image)) }
        ensures ok { OnOk result (self.new
            ≡ record (called (16 + length bytes.now) (Wrote at (length bytes.now)) self.old) {
              image = written at bytes.now self.old.image;
            }) }
        ensures err { OnErr result
            (self.new ≡ disk_failed (half_written (is_full self.old.plan (16 + length bytes.now))
            at bytes.now self.old)) }

        ensures failed { CountsFault result self.old.counts.disk self.new.counts.disk }
        ensures attached { self.new.attached ≡ true }
        ensures file { Writes at bytes.now result
            (state_of self.old).disk (state_of self.new).disk }
        ensures now { LeavesBy (Torn at (length bytes.now)) result
            (crashes_of self.old).now (crashes_of self.new).now }
        ensures call { OneCall (stretch_of state_of crashes_of self.old self.new) }
        ensures rest { OnlyDisk (state_of self.old) (state_of self.new) }
    {
        let fate = self.plan.make(LEAST_COST + bytes.len());
        let start = at as usize;
        match fate {
            Fate::Works if start <= self.image.len() => {
                self.past
                    .add(Effect::Wrote(at, bytes.len()), &self.image, &self.sent);
                image::write(&mut self.image, start, bytes);
                return Ok(());
            }
            Fate::Fails if start <= self.image.len() => {
                self.past
                    .add(Effect::Wrote(at, bytes.len()), &self.image, &self.sent);
                image::write(&mut self.image, start, &bytes[..bytes.len() / 2]);
            }
            _ => self.past.add(Effect::Kept, &self.image, &self.sent),
        }
        self.disk = self.disk.saturating_add(1);
        Err(DiskFailed)
    }

    /// The file is cut, unless it is shorter than that; a failed one changes nothing. It costs 16.
    fn cut(&mut self, length: u64) -> Result<(), DiskFailed>
        requires { self.old.attached ≡ true }
        ensures exactly { is_ok result
            ≡ (not (fails_at self.old.plan 16) && nat_le length (list_length self.old.image)) }
        ensures ok { OnOk result (self.new ≡ record (called 16 (Cut length) self.old) {
          image = take length self.old.image;
        }) }
        ensures err { OnErr result (self.new ≡ disk_failed (called 16 Kept self.old)) }

        ensures failed { CountsFault result self.old.counts.disk self.new.counts.disk }
        ensures attached { self.new.attached ≡ true }
        ensures file { Cuts length result (state_of self.old).disk (state_of self.new).disk }
        ensures now { LeavesBy (MaybeCut length) result
            (crashes_of self.old).now (crashes_of self.new).now }
        ensures call { OneCall (stretch_of state_of crashes_of self.old self.new) }
        ensures rest { OnlyDisk (state_of self.old) (state_of self.new) }
    {
        let fate = self.plan.make(LEAST_COST);
        let end = length as usize;
        match fate {
            Fate::Works if end <= self.image.len() => {
                self.past.add(Effect::Cut(length), &self.image, &self.sent);
                self.image.truncate(end);
                Ok(())
            }
            _ => {
                self.past.add(Effect::Kept, &self.image, &self.sent);
                self.disk = self.disk.saturating_add(1);
                Err(DiskFailed)
            }
        }
    }

    /// The file is on the disk as it reads; a failed one leaves what was pending. It costs 16.
    fn sync(&mut self) -> Result<(), DiskFailed>
        requires { self.old.attached ≡ true }
        ensures exactly { is_ok result ≡ not (fails_at self.old.plan 16) }
        ensures ok { OnOk result (self.new ≡ called 16 Synced self.old) }
        ensures err { OnErr result (self.new ≡ disk_failed (called 16 Kept self.old)) }

        ensures failed { CountsFault result self.old.counts.disk self.new.counts.disk }
        ensures attached { self.new.attached ≡ true }
        ensures file { MakesFile Stays (state_of self.old).disk (state_of self.new).disk }
        ensures now { Settles result (state_of self.new).disk
            (crashes_of self.old).now (crashes_of self.new).now }
        ensures call { OneCall (stretch_of state_of crashes_of self.old self.new) }
        ensures rest { OnlyDisk (state_of self.old) (state_of self.new) }
    {
        let fate = self.plan.make(LEAST_COST);
        self.past
            .add(Effect::Synced.if_works(fate), &self.image, &self.sent);
        match fate {
            Fate::Works => Ok(()),
            Fate::Fails | Fate::Full => {
                self.disk = self.disk.saturating_add(1);
                Err(DiskFailed)
            }
        }
    }
}
