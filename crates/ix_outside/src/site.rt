//! The wire and the disk of a running manager.
ghost use Rattle.std.specs.Prelude.{◌≡◌, ◌≤◌, ◌<◌, ◌-◌, min, true, false, length};
ghost use Rattle.std.specs.Prelude.{length as list_length};
ghost use Rattle.std.specs.Prelude.{take, drop, is_ok, IfOk, OnOk, OnErr};
ghost use Rattle.ix_outside.specs.Contents.{Listens, Gives, SendsBytes};
ghost use Rattle.ix_outside.specs.Counts.{CountsFault, Rose};
ghost use Rattle.ix_outside.specs.Crashes.{AreLawful, Crashes, OneCall, nothing_left, stretch_of};
ghost use Rattle.ix_outside.specs.Crashes.{LeavesBy, LeavesTheSame, Settles};
ghost use Rattle.ix_outside.specs.Disk.{Attaches, Cuts, MakesFile, MaybeCut, OfFile, Stays, Torn};
ghost use Rattle.ix_outside.specs.Disk.{Writes};
ghost use Rattle.ix_outside.specs.Event.{FitsBuffer};
ghost use Rattle.ix_outside.specs.SiteState.{SiteState, OnlyDisk, OnlyWire, OnlySend};

use crate::{DiskFailed, Event, Gone, WireFailed};

/// Connections, and one file. `listen` and `next` are the calls of the wire, `attach` and those
/// after it the calls of the disk. A failed call of the disk may have done a part of its work.
///
/// What a crash leaves, before, within or after any call: until a `sync` that answered Ok a write
/// may have left any bytes in its range, and the file may end anywhere from its length before to
/// that behind the write; a cut may or may not have taken place. What was synced stays.
pub trait Site {
    /// What a proof knows of the site. It ceases to tell a part of its contents or its disk only in
    /// a send that answers Gone, and never begins to.
    ghost state: { Self → SiteState };

    /// What a crash may leave: now, and at some moment since a tick. A site that doesn't tell its
    /// disk need not say.
    ghost crashes: { Self → Crashes } = { λ _. nothing_left };

    /// Begins to take connections under this name.
    fn listen(&mut self, name: &str) -> Result<(), WireFailed>
        ensures failed { OnErr result
            (Rose (state self.old).counts.wire (state self.new).counts.wire) }
        ensures contents { Listens name.now result
            (state self.old).contents (state self.new).contents }
        ensures now { LeavesTheSame (crashes self.old).now (crashes self.new).now }
        ensures call { OneCall (stretch_of state crashes self.old self.new) }
        ensures rest { OnlyWire (state self.old) (state self.new) };

    /// The next event. The bytes of a `Bytes` event stand at the front of `buf`.
    fn next(&mut self, buf: &mut [u8]) -> Result<Event, WireFailed>
        requires { 0 < length buf.old }
        ensures event { IfOk result (FitsBuffer (length buf.old)) }
        ensures failed { OnErr result
            (Rose (state self.old).counts.wire (state self.new).counts.wire) }
        ensures contents { Gives buf.new result
            (state self.old).contents (state self.new).contents }
        ensures now { LeavesTheSame (crashes self.old).now (crashes self.new).now }
        ensures call { OneCall (stretch_of state crashes self.old self.new) }
        ensures rest { OnlyWire (state self.old) (state self.new) };

    /// Sends the bytes on a connection. After `Gone` some front of them may have been sent.
    fn send(&mut self, conn: u8, bytes: &[u8]) -> Result<(), Gone>
        ensures failed { OnErr result
            (Rose (state self.old).counts.send (state self.new).counts.send) }
        ensures contents { SendsBytes conn bytes.now result
            (state self.old).contents (state self.new).contents }
        ensures disk { OnOk result ((state self.new).disk ≡ (state self.old).disk) }
        ensures now { LeavesTheSame (crashes self.old).now (crashes self.new).now }
        ensures call { OneCall (stretch_of state crashes self.old self.new) }
        ensures rest { OnlySend (state self.old) (state self.new) };

    /// Attaches the file of this name; an absent one is made with no bytes. After a
    /// fault none is attached.
    fn attach(&mut self, name: &str) -> Result<(), DiskFailed>
        requires { (state self.old).attached ≡ false }
        ensures failed { CountsFault result
            (state self.old).counts.disk (state self.new).counts.disk }
        ensures attached { (state self.new).attached ≡ is_ok result }
        ensures file { Attaches name.now result (state self.new).tick
            (state self.old).disk (state self.new).disk }
        ensures now { Settles result (state self.new).disk
            (crashes self.old).now (crashes self.new).now }
        ensures call { OneCall (stretch_of state crashes self.old self.new) }
        ensures rest { OnlyDisk (state self.old) (state self.new) };

    /// How many bytes the attached file has.
    fn length(&mut self) -> Result<u64, DiskFailed>
        requires { (state self.old).attached ≡ true }
        ensures failed { CountsFault result
            (state self.old).counts.disk (state self.new).counts.disk }
        ensures attached { (state self.new).attached ≡ true }
        ensures value { IfOk result
            (λ count. OfFile (λ file. count ≡ length file) (state self.old).disk) }
        ensures file { MakesFile Stays (state self.old).disk (state self.new).disk }
        ensures now { LeavesTheSame (crashes self.old).now (crashes self.new).now }
        ensures call { OneCall (stretch_of state crashes self.old self.new) }
        ensures rest { OnlyDisk (state self.old) (state self.new) };

    /// Reads the bytes from `at` on into the front of `buf`, and gives their number;
    /// 0 is the file's end.
    fn read_at(&mut self, at: u64, buf: &mut [u8]) -> Result<usize, DiskFailed>
        requires { (state self.old).attached ≡ true }
        ensures within { IfOk result (λ count. count ≤ length buf.old) }
        ensures failed { CountsFault result
            (state self.old).counts.disk (state self.new).counts.disk }
        ensures attached { (state self.new).attached ≡ true }
        ensures value { IfOk result (λ count. OfFile
            (λ file. count ≡ min (length buf.old) (length file - at)) (state self.old).disk) }
        ensures bytes { IfOk result (λ count. OfFile
            (λ file. take count buf.new ≡ take count (drop at file)) (state self.old).disk) }
        ensures file { MakesFile Stays (state self.old).disk (state self.new).disk }
        ensures now { LeavesTheSame (crashes self.old).now (crashes self.new).now }
        ensures call { OneCall (stretch_of state crashes self.old self.new) }
        ensures rest { OnlyDisk (state self.old) (state self.new) };

    /// Writes the bytes at `at`, over what is there and past the end.
    fn write_at(&mut self, at: u64, bytes: &[u8]) -> Result<(), DiskFailed>
        requires attached { (state self.old).attached ≡ true }
        requires place { OfFile (λ file. at ≤ length file) (state self.old).disk }
        ensures failed { CountsFault result
            (state self.old).counts.disk (state self.new).counts.disk }
        ensures attached { (state self.new).attached ≡ true }
        ensures file { Writes at bytes.now result (state self.old).disk (state self.new).disk }
        ensures now { LeavesBy (Torn at (length bytes.now)) result
            (crashes self.old).now (crashes self.new).now }
        ensures call { OneCall (stretch_of state crashes self.old self.new) }
        ensures rest { OnlyDisk (state self.old) (state self.new) };

    /// Cuts the attached file to its first `length` bytes.
    fn cut(&mut self, length: u64) -> Result<(), DiskFailed>
        requires attached { (state self.old).attached ≡ true }
        requires shorter { OfFile (λ file. length ≤ list_length file) (state self.old).disk }
        ensures failed { CountsFault result
            (state self.old).counts.disk (state self.new).counts.disk }
        ensures attached { (state self.new).attached ≡ true }
        ensures file { Cuts length result (state self.old).disk (state self.new).disk }
        ensures now { LeavesBy (MaybeCut length) result
            (crashes self.old).now (crashes self.new).now }
        ensures call { OneCall (stretch_of state crashes self.old self.new) }
        ensures rest { OnlyDisk (state self.old) (state self.new) };

    /// Brings to the disk what was written before.
    fn sync(&mut self) -> Result<(), DiskFailed>
        requires { (state self.old).attached ≡ true }
        ensures failed { CountsFault result
            (state self.old).counts.disk (state self.new).counts.disk }
        ensures attached { (state self.new).attached ≡ true }
        ensures file { MakesFile Stays (state self.old).disk (state self.new).disk }
        ensures now { Settles result (state self.new).disk
            (crashes self.old).now (crashes self.new).now }
        ensures call { OneCall (stretch_of state crashes self.old self.new) }
        ensures rest { OnlyDisk (state self.old) (state self.new) };

    /// What a crash may leave agrees with what is told.
    ghost lawful: { (site : Self) → AreLawful (state site) (crashes site) };
}
