//! Files of the disk.
ghost use Rattle.std.specs.Prelude.{◌≡◌, ◌≤◌, ◌<◌, length, IfSome, IfOk, OnOk, IsErrOf};
ghost use Rattle.std.specs.Io.KnownBytes.{Consumes, IsAtEnd};
ghost use Rattle.ix_real.specs.inside.Untold.{untold_files};

use crate::faults::count_fault;
use ix_outside::{Files, LoadFault};
use std::alloc::Global;
use std::io::{ErrorKind, Read};
use std::marker::Model;
use std::{fs, rt};

/// The files that the runtime reaches. A name is a path of the disk.
#[derive(Drop)]
pub struct RealFiles<'a, R> {
    rt: &'a R,
    faults: u64,
}

/// Contracts see how many loads failed.
impl<'a, R> Model for RealFiles<'a, R> {
    ghost use Rattle.std.specs.Prelude.{ℕ};

    ghost Value = { ℕ };

    ghost view = { λ files. files.faults };
}

impl<'a, R: rt::Files> RealFiles<'a, R> {
    /// None failed yet.
    pub fn new(rt: &'a R) -> Self
        ensures { result ≡ 0 }
    {
        RealFiles { rt, faults: 0 }
    }
}

impl<R: rt::Files> Files for RealFiles<'_, R> {
    ghost state = { untold_files };

    fn load(&mut self, alloc: Global, name: &str, limit: usize) -> Result<Vec<u8>, LoadFault> {
        let loaded = read_within(alloc, self.rt, name, limit);
        if let Err(LoadFault::Failed) = loaded {
            count_fault(&mut self.faults);
        }
        loaded
    }
}

/// The bytes of the file of this name, at most `limit` of them.
fn read_within<R: rt::Files>(
    alloc: Global,
    rt: &R,
    name: &str,
    limit: usize,
) -> Result<Vec<u8>, LoadFault>
    ensures { IfOk result (λ bytes. length bytes.items ≤ limit) }
{
    match fs::open(rt, name) {
        Ok(mut file) => read_to_limit(alloc, &mut file, limit),
        Err(_) => Err(LoadFault::Failed),
    }
}

/// All that the reader has left, at most `limit` bytes.
fn read_to_limit<F: Read>(alloc: Global, file: &mut F, limit: usize) -> Result<Vec<u8>, LoadFault>
    ensures within { IfOk result (λ bytes. length bytes.items ≤ limit) }
    ensures bytes { IfOk result (λ bytes.
        Consumes (F.remaining file.old) (F.remaining file.new) bytes.items) }
    ensures all { OnOk result (IsAtEnd (F.remaining file.new)) }
    ensures too_long { IsErrOf result LoadFault.TooLong
        → IfSome (F.remaining file.old) (λ bytes. limit < length bytes) }
{
    let mut bytes = Vec::new(alloc);
    let mut piece = [0u8; 16384];
    for _ in 0..u64::MAX {
        match file.read(&mut piece) {
            Ok(0) => return Ok(bytes),
            Ok(count) if limit - bytes.len() < count => return Err(LoadFault::TooLong),
            Ok(count) => bytes.extend_from_slice(&piece[..count])?,
            Err(error) if error.kind() == ErrorKind::Interrupted => {}
            Err(_) => return Err(LoadFault::Failed),
        }
    }
    Err(LoadFault::Failed)
}
