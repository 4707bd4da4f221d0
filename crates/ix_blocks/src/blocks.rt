//! The file of one owner over a store of keys.

ghost use Rattle.std.specs.Prelude.{◌≡◌, ◌≤◌, ◌<◌, ◌+◌, ◌-◌, ◌/◌, [], None, Err, min, take, drop};
ghost use Rattle.std.specs.Prelude.{length, length as list_length, IfOk, IfErr, OnOk, OnErr};
ghost use Rattle.std.specs.Int.{div_ceil};
ghost use Rattle.ix_outside.specs.Disk.{Overwrites};
ghost use Rattle.ix_blocks.specs.declared.file.NoRoom.TheVariants.{Full};
ghost use Rattle.ix_blocks.specs.declared.keys.Fault.TheVariants.{Ended};
ghost use Rattle.ix_blocks.specs.FileBlocks.{block_count};
ghost use Rattle.ix_blocks.specs.inside.StoreCalls.{WhereTold, TimePasses, ReadsBlock};
ghost use Rattle.ix_blocks.specs.inside.OwnerCalls.{TakesFile, TakesNothing, StaysOwned};
ghost use Rattle.ix_blocks.specs.inside.OwnerCalls.{Syncs, LeavesOneOfTwo, LosesClaim, Checks};
ghost use Rattle.ix_blocks.specs.inside.Reading.{ReadsFront};

use crate::{
    BLOCK_BYTES, Claim, Commit, Fault, File, Keys, MOST_CHANGED, NoRoom, Request, Unanswered,
};
use std::alloc::Global;

/// A file that was attached: what its owner knows, unless a sync of it failed, and the file in
/// memory.
#[derive(Debug, Drop)]
pub struct Blocks {
    claim: Option<Claim>,
    file: File,
}

impl Blocks {
    /// Takes the file over from whoever has it: looks at the head, puts its own, and reads the file
    /// as it is then. After Ok what an earlier owner sends changes nothing any more. `Ended` is
    /// answered if the head was put again since the look. After any other fault the attach may have
    /// taken place, or may later; the file stays.
    pub fn attach<K: Keys>(alloc: Global, keys: &mut K) -> Result<Blocks, Fault>
        ensures takes { IfOk result (λ blocks. WhereTold (TakesFile blocks)
            (K.state keys.old) (K.state keys.new)) }
        ensures fails { IfErr result (λ fault. WhereTold (TakesNothing fault)
            (K.state keys.old) (K.state keys.new)) }
    {
        let Ok(seen) = keys.look() else {
            return Err(Fault::NoAnswer);
        };
        let Ok(says) = keys.commit(Request::attach(alloc, &seen)) else {
            return Err(Fault::NoAnswer);
        };
        let Commit::Applied(revision) = says else {
            return Err(Fault::Ended);
        };
        match read_file(alloc, keys, revision, seen.head.length as usize) {
            Ok(file) => Ok(Blocks {
                claim: Some(Claim::attached(revision)),
                file,
            }),
            Err(fault) => Err(fault),
        }
    }

    /// How many bytes the file has.
    pub fn length(&self) -> usize
        ensures { result ≡ length self.now.file.bytes.items }
    {
        self.file.length()
    }

    /// Reads the bytes from `at` on into the front of the buffer, and gives their number.
    pub fn read_at(&self, at: usize, buf: &mut [u8]) -> usize
        ensures count { result ≡ min (length buf.old) (length self.now.file.bytes.items - at) }
        ensures front { take result buf.new ≡ take result (drop at self.now.file.bytes.items) }
        ensures rest { drop result buf.new ≡ drop result buf.old }
    {
        self.file.read_at(at, buf)
    }

    /// Writes the bytes at `at`, over what is there and past the end, in memory. Where there is no
    /// room, the file stays. It is `Full` only if the blocks that changed and those of the range
    /// are more than `MOST_CHANGED`. What the owner has of the store stays.
    pub fn write_at(&mut self, at: usize, bytes: &[u8]) -> Result<(), NoRoom>
        requires { at ≤ length self.old.file.bytes.items }
        ensures ok { OnOk result
            (Overwrites at bytes.now self.old.file.bytes.items self.new.file.bytes.items) }
        ensures err { OnErr result (self.new.file.bytes.items ≡ self.old.file.bytes.items) }
        ensures full { result ≡ Err Full → MOST_CHANGED < length self.old.file.changed.items
            + (div_ceil (at + length bytes.now) BLOCK_BYTES - at / BLOCK_BYTES) }
        ensures owns { StaysOwned self.old self.new }
    {
        self.file.write_at(at, bytes)
    }

    /// Cuts the file to its first `count` bytes, in memory. Where there is no room, it stays; it is
    /// `Full` only if `MOST_CHANGED` blocks changed. What the owner has of the store stays.
    pub fn cut(&mut self, count: usize) -> Result<(), NoRoom>
        requires { count ≤ length self.old.file.bytes.items }
        ensures ok { OnOk result
            (self.new.file.bytes.items ≡ take count self.old.file.bytes.items) }
        ensures err { OnErr result (self.new.file.bytes.items ≡ self.old.file.bytes.items) }
        ensures full { result ≡ Err Full → length self.old.file.changed.items ≡ MOST_CHANGED }
        ensures owns { StaysOwned self.old self.new }
    {
        self.file.cut(count)
    }

    /// Brings what changed to the store, in one transaction, unless another owner attached. Where
    /// there is no room, nothing is sent, and the blocks stay. After any other fault the file in
    /// the store may be the one that was synced before or the one in memory, and no sync or check
    /// works any more.
    pub fn sync<K: Keys>(&mut self, alloc: Global, keys: &mut K) -> Result<(), Fault>
        ensures goes { WhereTold (Syncs result self.old self.new)
            (K.state keys.old) (K.state keys.new) }
        ensures whole { WhereTold (LeavesOneOfTwo self.old) (K.state keys.old) (K.state keys.new) }
        ensures bytes { self.new.file.bytes.items ≡ self.old.file.bytes.items }
        ensures err { OnErr result (self.new.file ≡ self.old.file) }
        ensures lost { IfErr result (λ fault. LosesClaim fault self.old.claim self.new.claim) }
        ensures none { self.old.claim ≡ None → result ≡ Err Ended }
    {
        let Some(mut claim) = self.claim else {
            return Err(Fault::Ended);
        };
        let request = match Request::sync(alloc, &mut claim, &self.file) {
            Ok(request) => request,
            Err(why) => return Err(Fault::NoRoom(why)),
        };
        self.claim = None;
        let Ok(says) = keys.commit(request) else {
            return Err(Fault::NoAnswer);
        };
        if !claim.learn(&says) {
            return Err(Fault::Ended);
        }
        self.claim = Some(claim);
        self.file.settle();
        Ok(())
    }

    /// That no other owner attached, at a moment of the call. The blocks stay.
    pub fn check<K: Keys>(&self, keys: &mut K) -> Result<(), Fault>
        ensures goes { WhereTold (Checks result self.now) (K.state keys.old) (K.state keys.new) }
        ensures none { self.now.claim ≡ None → result ≡ Err Ended }
    {
        let Some(claim) = self.claim else {
            return Err(Fault::Ended);
        };
        match keys.look() {
            Ok(seen) if seen.revision == claim.revision => Ok(()),
            Ok(_) => Err(Fault::Ended),
            Err(Unanswered) => Err(Fault::NoAnswer),
        }
    }
}

/// Reads the file of this length, as it is while the head is the one put last at the revision `at`.
fn read_file<K: Keys>(alloc: Global, keys: &mut K, at: u64, length: usize) -> Result<File, Fault>
    ensures long { IfOk result (λ file. length ≡ list_length file.bytes.items) }
    ensures clean { IfOk result (λ file. file.changed.items ≡ []) }
    ensures reads { IfOk result
        (λ file. WhereTold (ReadsFront at (block_count file.bytes.items) file.bytes.items)
        (K.state keys.old) (K.state keys.new)) }
    ensures rest { WhereTold TimePasses (K.state keys.old) (K.state keys.new) }
    ensures fault { IfErr result (λ fault. ¬ (fault ≡ Ended)) }
{
    let mut bytes = Vec::new(alloc);
    for number in 0..length.div_ceil(BLOCK_BYTES) {
        let count = (length - number * BLOCK_BYTES).min(BLOCK_BYTES);
        let block = read_block(alloc, keys, number, at, count)?;
        let Ok(()) = bytes.extend_from_slice(&block) else {
            return Err(Fault::NoRoom(NoRoom::Memory));
        };
    }
    Ok(File::synced(alloc, bytes))
}

/// Reads a block that has so many bytes.
fn read_block<K: Keys>(
    alloc: Global,
    keys: &mut K,
    number: usize,
    at: u64,
    count: usize,
) -> Result<Vec<u8>, Fault>
    ensures count { IfOk result (λ bytes. length bytes.items ≡ count) }
    ensures reads { IfOk result (λ bytes.
        WhereTold (ReadsBlock number at bytes.items) (K.state keys.old) (K.state keys.new)) }
    ensures rest { WhereTold TimePasses (K.state keys.old) (K.state keys.new) }
    ensures fault { IfErr result (λ fault. ¬ (fault ≡ Ended)) }
{
    let Ok(bytes) = keys.block(alloc, number, at) else {
        return Err(Fault::NoAnswer);
    };
    if bytes.len() != count {
        return Err(Fault::Damaged);
    }
    Ok(bytes)
}
