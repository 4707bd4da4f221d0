//! A file in memory, and which of its blocks changed since it was synced.

ghost use Rattle.std.specs.Prelude.{◌≡◌, ◌≤◌, ◌<◌, ◌+◌, ◌-◌, ◌++◌, [], true, min, length, take};
ghost use Rattle.std.specs.Prelude.{ℕ, List, drop, map, vec_len, vec_capacity, IfOk, OnOk, OnErr};
ghost use Rattle.std.specs.Prelude.{◌/◌, Err};
ghost use Rattle.std.specs.Int.{div_ceil};
ghost use Rattle.ix_outside.specs.Disk.{Overwrites};
ghost use Rattle.ix_blocks.specs.declared.file.NoRoom.TheVariants.{Full};
ghost use Rattle.ix_blocks.specs.FileBlocks.{block_of, block_count, is_among, DiffersIn};
ghost use Rattle.ix_blocks.specs.FileBlocks.{changed_blocks};
ghost use Rattle.ix_blocks.specs.inside.Marks.{MarksOnly};
ghost use Rattle.ix_blocks.specs.inside.PlainBlocks.{plain_block};

use std::alloc::{AllocError, Global};

/// How many bytes a block has, but the last of a file, which may have fewer.
pub const BLOCK_BYTES: usize = 4096;

/// How many blocks may differ from what was synced.
pub const MOST_CHANGED: usize = 120;

/// One block of a file.
#[derive(Debug, Drop)]
pub struct Block {
    /// Its number, from 0 on.
    pub number: usize,
    /// Its bytes.
    pub bytes: Vec<u8>,
}

/// Why there is no room.
#[derive(Clone, Copy, Debug, PartialEq, Eq)]
pub enum NoRoom {
    /// There is no memory.
    Memory,
    /// A limit of the call is met.
    Full,
}

/// A file in memory, with the numbers of the blocks that may differ from what was synced.
#[derive(Debug, Drop)]
pub struct File {
    bytes: Vec<u8>,
    changed: Vec<usize>,
    ghost few: { length changed.items ≤ 120 },
}

impl File {
    /// A file of which these bytes were synced.
    pub fn synced(alloc: Global, bytes: Vec<u8>) -> File
        ensures bytes { result.bytes.items ≡ bytes.items }
        ensures changed { result.changed.items ≡ [] }
    {
        File {
            bytes,
            changed: Vec::new(alloc),
        }
    }

    /// How many bytes it has.
    pub fn length(&self) -> usize
        ensures { result ≡ length self.now.bytes.items }
    {
        self.bytes.len()
    }

    /// How many blocks it has.
    pub fn block_count(&self) -> usize
        ensures { result ≡ block_count self.now.bytes.items }
    {
        self.bytes.len().div_ceil(BLOCK_BYTES)
    }

    /// Reads the bytes from `at` on into the front of the buffer, and gives their number.
    pub fn read_at(&self, at: usize, buf: &mut [u8]) -> usize
        ensures count { result ≡ min (length buf.old) (length self.now.bytes.items - at) }
        ensures front { take result buf.new ≡ take result (drop at self.now.bytes.items) }
        ensures rest { drop result buf.new ≡ drop result buf.old }
    {
        read(&self.bytes, at, buf)
    }

    /// Writes the bytes at `at`, over what is there and past the end. Where there is no room, the
    /// bytes of the file stay. It is `Full` only if the blocks that changed and those of the range
    /// are more than `MOST_CHANGED`. No block outside the range is newly taken as changed.
    pub fn write_at(&mut self, at: usize, bytes: &[u8]) -> Result<(), NoRoom>
        requires { at ≤ length self.old.bytes.items }
        ensures ok { OnOk result
            (Overwrites at bytes.now self.old.bytes.items self.new.bytes.items) }
        ensures err { OnErr result (self.new.bytes.items ≡ self.old.bytes.items) }
        ensures full { result ≡ Err Full → MOST_CHANGED < length self.old.changed.items
            + (div_ceil (at + length bytes.now) BLOCK_BYTES - at / BLOCK_BYTES) }
        ensures marks { MarksOnly self.old.changed.items self.new.changed.items
            (at / BLOCK_BYTES) (div_ceil (at + length bytes.now) BLOCK_BYTES) }
        ensures differs { (synced : List ℕ)
            → DiffersIn self.old.changed.items synced self.old.bytes.items
            → DiffersIn self.new.changed.items synced self.new.bytes.items }
    {
        let Some(end) = at.checked_add(bytes.len()) else {
            return Err(NoRoom::Memory);
        };
        let Ok(()) = self.bytes.reserve(bytes.len()) else {
            return Err(NoRoom::Memory);
        };
        mark_all(
            &mut self.changed,
            at / BLOCK_BYTES,
            end.div_ceil(BLOCK_BYTES),
        )?;
        write(&mut self.bytes, at, bytes);
        Ok(())
    }

    /// Cuts the file to its first `count` bytes. Where there is no room, it stays; it is `Full`
    /// only if `MOST_CHANGED` blocks changed. No block is newly taken as changed except a last one
    /// that is cut.
    pub fn cut(&mut self, count: usize) -> Result<(), NoRoom>
        requires { count ≤ length self.old.bytes.items }
        ensures ok { OnOk result (self.new.bytes.items ≡ take count self.old.bytes.items) }
        ensures err { OnErr result (self.new.bytes.items ≡ self.old.bytes.items) }
        ensures full { result ≡ Err Full → length self.old.changed.items ≡ MOST_CHANGED }
        ensures marks { MarksOnly self.old.changed.items self.new.changed.items
            (count / BLOCK_BYTES) (div_ceil count BLOCK_BYTES) }
        ensures differs { (synced : List ℕ)
            → DiffersIn self.old.changed.items synced self.old.bytes.items
            → DiffersIn self.new.changed.items synced self.new.bytes.items }
    {
        mark_all(
            &mut self.changed,
            count / BLOCK_BYTES,
            count.div_ceil(BLOCK_BYTES),
        )?;
        self.bytes.truncate(count);
        Ok(())
    }

    /// The changed blocks that the file has, at most `MOST_CHANGED`.
    pub fn changed_blocks(&self, alloc: Global) -> Result<Vec<Block>, AllocError>
        ensures blocks { IfOk result (λ blocks. map plain_block blocks.items
            ≡ changed_blocks self.now.changed.items self.now.bytes.items) }
        ensures few { IfOk result (λ blocks. length blocks.items ≤ MOST_CHANGED) }
    {
        let count = self.block_count();
        let mut blocks = Vec::new(alloc);
        for &number in self.changed.iter() {
            if number < count {
                blocks.push(block_at(alloc, &self.bytes, number)?)?;
            }
        }
        Ok(blocks)
    }

    /// Takes the file as synced.
    pub fn settle(&mut self)
        ensures bytes { self.new.bytes.items ≡ self.old.bytes.items }
        ensures changed { self.new.changed.items ≡ [] }
    {
        self.changed.clear();
    }
}

fn block_at(alloc: Global, bytes: &[u8], number: usize) -> Result<Block, AllocError>
    requires { number < block_count bytes.now }
    ensures number { IfOk result (λ block. block.number ≡ number) }
    ensures bytes { IfOk result (λ block. block.bytes.items ≡ block_of bytes.now number) }
{
    let start = number * BLOCK_BYTES;
    let count = (bytes.len() - start).min(BLOCK_BYTES);
    Ok(Block {
        number,
        bytes: Vec::from_slice(alloc, &bytes[start..start + count])?,
    })
}

/// Puts a number among these, unless it is there.
fn mark(changed: &mut Vec<usize>, number: usize) -> Result<(), NoRoom>
    requires { length changed.old.items ≤ 120 }
    ensures few { length changed.new.items ≤ 120 }
    ensures has { OnOk result (is_among changed.new.items number ≡ true) }
    ensures marks { MarksOnly changed.old.items changed.new.items number (number + 1) }
    ensures full { result ≡ Err Full → length changed.old.items ≡ 120 }
    ensures grows { length changed.new.items ≤ length changed.old.items + 1 }
{
    if changed.contains(&number) {
        return Ok(());
    }
    if changed.len() >= MOST_CHANGED {
        return Err(NoRoom::Full);
    }
    match changed.push(number) {
        Ok(()) => Ok(()),
        Err(_) => Err(NoRoom::Memory),
    }
}

fn mark_all(changed: &mut Vec<usize>, from: usize, to: usize) -> Result<(), NoRoom>
    requires { length changed.old.items ≤ 120 }
    ensures few { length changed.new.items ≤ 120 }
    ensures has { OnOk result ((number : ℕ) → from ≤ number → number < to
        → is_among changed.new.items number ≡ true) }
    ensures marks { MarksOnly changed.old.items changed.new.items from to }
    ensures full { result ≡ Err Full → 120 < length changed.old.items + (to - from) }
{
    for number in from..to {
        mark(changed, number)?;
    }
    Ok(())
}

fn read(file: &[u8], at: usize, buf: &mut [u8]) -> usize
    ensures count { result ≡ min (length buf.old) (length file.now - at) }
    ensures front { take result buf.new ≡ take result (drop at file.now) }
    ensures rest { drop result buf.new ≡ drop result buf.old }
{
    if at >= file.len() {
        return 0;
    }
    let count = buf.len().min(file.len() - at);
    buf[..count].copy_from_slice(&file[at..at + count]);
    count
}

/// Writes the bytes at `at`, over what is there and past the end. It takes no memory.
fn write(file: &mut Vec<u8>, at: usize, bytes: &[u8])
    requires at { at ≤ length file.old.items }
    requires room { vec_len file.old + length bytes.now ≤ vec_capacity file.old }
    ensures { file.new.items ≡ take at file.old.items
        ++ (bytes.now ++ drop (at + length bytes.now) file.old.items) }
{
    let over = bytes.len().min(file.len() - at);
    write_over(file, at, &bytes[..over]);
    let taken = file.extend_from_slice(&bytes[over..]);
    prove!(taken.is_ok());
}

fn write_over(file: &mut [u8], at: usize, bytes: &[u8])
    requires { at + length bytes.now ≤ length file.old }
    ensures { file.new ≡ take at file.old
        ++ (bytes.now ++ drop (at + length bytes.now) file.old) }
{
    file[at..at + bytes.len()].copy_from_slice(bytes);
}
