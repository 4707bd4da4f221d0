//! Files in memory.
ghost use Rattle.std.specs.Prelude.{◌≡◌, ◌≤◌, ◌<◌, ◌↔◌, ℕ, List, length, map, IfOk, IsErrOf};
ghost use Rattle.std.specs.Prelude.{IsTrue, string_bytes, Some, MatchOption, true, ◌⊎◌};
ghost use Rattle.ix_outside.specs.Files.{HasFile, HasLonger, Lists};
ghost use Rattle.ix_outside.specs.FilesState.{OnlyFaults};
ghost use Rattle.ix_memory.specs.Calls.{next_call};
ghost use Rattle.ix_outside.specs.Counts.{one_more};
ghost use Rattle.ix_memory.specs.inside.MemoryFilesState.{memory_files_state, FailsToLoad};
ghost use Rattle.ix_memory.specs.inside.MemoryFilesState.{HasNoFile};
ghost use Rattle.ix_memory.specs.inside.MemoryFilesState.{listing_of};

use crate::calls::Calls;
use ix_outside::{Files, LoadFault};
use std::alloc::Global;
use std::marker::Model;

/// Files under names, the first of a name counting.
#[derive(Drop)]
pub struct MemoryFiles {
    files: Vec<(String, Vec<u8>)>,
    calls: Calls,
    faults: u64,
}

impl Model for MemoryFiles {
    ghost use Rattle.ix_memory.specs.inside.MemoryFilesState.{MemoryFilesState, listing_of};

    ghost Value = { MemoryFilesState };

    ghost view = { λ m. record {
      files = listing_of m.files.items;
      calls = m.calls;
      faults = m.faults;
    } };
}

impl MemoryFiles {
    /// These files. The calls whose numbers stand in `fail` are to fail, the first
    /// call being number 0.
    pub fn new(files: Vec<(String, Vec<u8>)>, fail: Vec<u64>) -> MemoryFiles
        ensures files { result.files ≡ listing_of files.items }
        ensures calls { result.calls ≡ record { fail = fail.items; number = 0 } }
        ensures faults { result.faults ≡ 0 }
    {
        MemoryFiles {
            files,
            calls: Calls::new(fail),
            faults: 0,
        }
    }
}

impl Files for MemoryFiles {
    ghost state = { memory_files_state };

    /// The bytes of the first file of this name. `Failed` is a call that is told to fail, or a
    /// name that no file has; `TooLong` a file of more than `limit` bytes; `Memory` want of
    /// memory for the copy.
    fn load(&mut self, alloc: Global, name: &str, limit: usize) -> Result<Vec<u8>, LoadFault>
        ensures bytes { IfOk result (λ bytes. HasFile (Some self.old.files) name.now bytes.items) }
        ensures within { IfOk result (λ bytes. length bytes.items ≤ limit) }
        ensures too_long { IsErrOf result LoadFault.TooLong
            → HasLonger (Some self.old.files) name.now limit }
        ensures exactly { (result ≡ Err LoadFault.Failed) ↔ FailsToLoad self.old name.now }
        ensures counted { IsErrOf result LoadFault.Failed
            → self.new.faults ≡ one_more self.old.faults }
        ensures not_counted { (result ≡ Err LoadFault.Failed → ⊥)
            → self.new.faults ≡ self.old.faults }
        ensures calls { self.new.calls ≡ next_call self.old.calls }
        ensures rest { OnlyFaults (memory_files_state self.old) (memory_files_state self.new) }
    {
        let is_told = self.calls.next_fails();
        let loaded = loaded(alloc, &self.files, is_told, name, limit);
        if let Err(LoadFault::Failed) = loaded {
            self.faults = self.faults.saturating_add(1);
        }
        loaded
    }
}

fn loaded(
    alloc: Global,
    files: &[(String, Vec<u8>)],
    is_told: bool,
    name: &str,
    limit: usize,
) -> Result<Vec<u8>, LoadFault>
    ensures bytes { IfOk result (λ bytes. Lists (listing_of files.now) name.now bytes.items) }
    ensures within { IfOk result (λ bytes. length bytes.items ≤ limit) }
    ensures too_long { IsErrOf result LoadFault.TooLong
        → HasLonger (Some (listing_of files.now)) name.now limit }
    ensures failed { result ≡ Err LoadFault.Failed
        → (is_told ≡ true) ⊎ HasNoFile (listing_of files.now) name.now }
    ensures told { is_told ≡ true → result ≡ Err LoadFault.Failed }
    ensures absent { HasNoFile (listing_of files.now) name.now → result ≡ Err LoadFault.Failed }
{
    if is_told {
        return Err(LoadFault::Failed);
    }
    let Some(bytes) = bytes_of(files, name) else {
        return Err(LoadFault::Failed);
    };
    if bytes.len() > limit {
        return Err(LoadFault::TooLong);
    }
    match bytes.to_vec(alloc) {
        Ok(copy) => Ok(copy),
        Err(_) => Err(LoadFault::Memory),
    }
}

fn bytes_of<'a>(files: &'a [(String, Vec<u8>)], name: &str) -> Option<&'a [u8]>
    ensures { MatchOption result
        (HasNoFile (listing_of files.entry.now) name.now)
        (λ bytes. Lists (listing_of files.entry.now) name.now bytes.now) }
{
    for (known, bytes) in files {
        if known.as_str() == name {
            return Some(bytes.as_slice());
        }
    }
    None
}
