//! The disk of a site: one file that no other process writes meanwhile.
ghost use Rattle.std.specs.Prelude.{◌≡◌, ◌≤◌, true, false, length, is_ok, IfOk};
ghost use Rattle.ix_outside.specs.Counts.{CountsFault};
ghost use Rattle.ix_real.specs.inside.Untold.{with_fault};

use crate::faults::count_fault;
use crate::journal;
use ix_outside::DiskFailed;
use std::fs::File;
use std::marker::Model;
use std::os::unix::fs::FileExt;
use std::rt;

/// One file, with the calls of a site's disk.
///
/// The file is locked while it is attached, so that a second manager can't attach it. A read or a
/// write that was interrupted, or that did a part, goes on. A failed call may have done a part of
/// its work; it is counted, and no other is.
#[derive(Drop)]
pub struct Disk<'a, R> {
    rt: &'a R,
    file: Option<File>,
    pub(crate) faults: u64,
}

/// Contracts see how many calls failed, and whether a file is attached.
impl<'a, R> Model for Disk<'a, R> {
    ghost use Rattle.std.specs.Prelude.{is_some};
    ghost use Rattle.ix_real.specs.inside.Untold.{DiskState};

    ghost Value = { DiskState };

    ghost view = { λ disk. record { faults = disk.faults; attached = is_some disk.file } };
}

impl<'a, R> Disk<'a, R> {
    /// No file is attached yet, and no call failed.
    pub fn new(rt: &'a R) -> Self
        ensures { result ≡ record { faults = 0; attached = false } }
    {
        Disk {
            rt,
            file: None,
            faults: 0,
        }
    }

    // The file that is attached.
    fn file(&self) -> &File
        requires { self.now.attached ≡ true }
    {
        match &self.file {
            Some(file) => file,
            None => unreachable!(),
        }
    }

    // A call failed.
    fn failed(&mut self) -> DiskFailed
        ensures fault { self.new ≡ with_fault self.old }
        ensures no_fewer { self.old.faults ≤ self.new.faults }
    {
        count_fault(&mut self.faults);
        DiskFailed
    }

    /// How many bytes the file has.
    pub fn length(&mut self) -> Result<u64, DiskFailed>
        requires { self.old.attached ≡ true }
        ensures failed { CountsFault result self.old.faults self.new.faults }
        ensures no_fewer { self.old.faults ≤ self.new.faults }
        ensures attached { self.new.attached ≡ true }
    {
        match self.file().metadata() {
            Ok(metadata) => Ok(metadata.len()),
            Err(_) => Err(self.failed()),
        }
    }

    /// Reads the bytes from `at` on into the front of `buf`, until it is full or the file ends, and
    /// gives their number.
    pub fn read_at(&mut self, at: u64, buf: &mut [u8]) -> Result<usize, DiskFailed>
        requires { self.old.attached ≡ true }
        ensures within { IfOk result (λ count. count ≤ length buf.old) }
        ensures failed { CountsFault result self.old.faults self.new.faults }
        ensures no_fewer { self.old.faults ≤ self.new.faults }
        ensures attached { self.new.attached ≡ true }
    {
        match journal::fill_at(self.file(), at, buf) {
            Ok(count) => Ok(count),
            Err(_) => Err(self.failed()),
        }
    }

    /// Writes the bytes at `at`, over what is there and past the end.
    pub fn write_at(&mut self, at: u64, bytes: &[u8]) -> Result<(), DiskFailed>
        requires { self.old.attached ≡ true }
        ensures failed { CountsFault result self.old.faults self.new.faults }
        ensures no_fewer { self.old.faults ≤ self.new.faults }
        ensures attached { self.new.attached ≡ true }
    {
        match self.file().write_all_at(bytes, at) {
            Ok(()) => Ok(()),
            Err(_) => Err(self.failed()),
        }
    }

    /// Cuts the file to its first `length` bytes.
    pub fn cut(&mut self, length: u64) -> Result<(), DiskFailed>
        requires { self.old.attached ≡ true }
        ensures failed { CountsFault result self.old.faults self.new.faults }
        ensures no_fewer { self.old.faults ≤ self.new.faults }
        ensures attached { self.new.attached ≡ true }
    {
        match self.file().set_len(length) {
            Ok(()) => Ok(()),
            Err(_) => Err(self.failed()),
        }
    }

    /// Brings to the disk what was written before.
    pub fn sync(&mut self) -> Result<(), DiskFailed>
        requires { self.old.attached ≡ true }
        ensures failed { CountsFault result self.old.faults self.new.faults }
        ensures no_fewer { self.old.faults ≤ self.new.faults }
        ensures attached { self.new.attached ≡ true }
    {
        match self.file().sync_data() {
            Ok(()) => Ok(()),
            Err(_) => Err(self.failed()),
        }
    }
}

impl<R: rt::Files<File = File>> Disk<'_, R> {
    /// Attaches the file of this name; an absent one is made with no bytes. It fails also where
    /// another process has attached the file, which stays as it is. After a fault none is attached.
    pub fn attach(&mut self, name: &str) -> Result<(), DiskFailed>
        requires { self.old.attached ≡ false }
        ensures failed { CountsFault result self.old.faults self.new.faults }
        ensures no_fewer { self.old.faults ≤ self.new.faults }
        ensures attached { self.new.attached ≡ is_ok result }
    {
        match journal::open(self.rt, name) {
            Ok(file) => {
                self.file = Some(file);
                Ok(())
            }
            Err(_) => Err(self.failed()),
        }
    }
}
