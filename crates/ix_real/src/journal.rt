//! The file of a site: how it is opened, and reads that come in pieces.
ghost use Rattle.std.specs.Prelude.{◌≡◌, ℕ, ◌+◌, ◌<◌, ◌≤◌, List, length, take, None, IfOk};
ghost use Rattle.std.specs.Io.{ReadsAtMost};
ghost use Rattle.std.specs.Io.KnownBytes.{Consumes, IsAtEnd};
ghost use Rattle.std.specs.declared.option.Option.{Option};
ghost use Rattle.ix_real.specs.inside.Places.{known_from};

use std::fs::{File, OpenOptions};
use std::io::ErrorKind;
use std::os::unix::fs::FileExt;
use std::path::Path;
use std::{io, rt};

/// Opens the file of this name to read and to write it, and makes it where it is absent. It is
/// locked until it is closed: no other process, and no second call, can open it so meanwhile. Its
/// name has been brought to the disk. Where the call fails, what stands in the file is as it was.
/// A device or a pipe is refused, since its length isn't known.
pub(crate) fn open(rt: &impl rt::Files<File = File>, name: &str) -> io::Result<File> {
    let file = OpenOptions::new()
        .read(true)
        .write(true)
        .create(true)
        .truncate(false)
        .open(rt, name)?;
    if !file.metadata()?.is_file() {
        return Err(io::Error::from(ErrorKind::InvalidInput));
    }
    file.try_lock()?;
    sync_folder(rt, name)?;
    Ok(file)
}

/// Brings the names in the folder of this one to the disk. So that is done at a file that was there
/// already too: an earlier run may have made it and ended before it came here.
fn sync_folder(rt: &impl rt::Files<File = File>, name: &str) -> io::Result<()> {
    let folder = match Path::new(name).parent() {
        Some(parent) if !parent.as_str().is_empty() => parent,
        _ => Path::new("."),
    };
    File::open(rt, folder)?.sync_all()
}

/// A file that is read at a place.
pub(crate) trait ReadAt {
    /// The bytes of the file, where they are known.
    ghost bytes: { Self → Option (List ℕ) };

    /// Reads some bytes from `at` on, and gives their number: none only where the file ends, or
    /// where the buffer has no room.
    fn read_some(&self, at: u64, buf: &mut [u8]) -> io::Result<usize>
        ensures bound { ReadsAtMost result buf.new }
        ensures bytes { IfOk result (λ count. Consumes (known_from at (bytes self.now))
            (known_from (at + count) (bytes self.now)) (take count buf.new)) }
        ensures end { IfOk result (λ count. count ≡ 0 → 0 < length buf.old
            → IsAtEnd (known_from at (bytes self.now))) };
}

/// A file of the disk tells no contents.
impl ReadAt for File {
    ghost bytes = { λ _. None };

    fn read_some(&self, at: u64, buf: &mut [u8]) -> io::Result<usize> {
        self.read_at(buf, at)
    }
}

/// Reads from `at` on until the buffer is full or the file ends, and gives the number of bytes. A
/// read that was interrupted, or that gave a part, goes on.
pub(crate) fn fill_at<F: ReadAt>(file: &F, at: u64, buf: &mut [u8]) -> io::Result<usize>
    ensures bound { IfOk result (λ count. count ≤ length buf.old) }
    ensures bytes { IfOk result (λ count. Consumes (known_from at (F.bytes file.now))
        (known_from (at + count) (F.bytes file.now)) (take count buf.new)) }
    ensures whole { IfOk result (λ count. count < length buf.old
        → IsAtEnd (known_from (at + count) (F.bytes file.now))) }
{
    let mut filled = 0;
    for _ in 0..u64::MAX {
        if filled == buf.len() {
            return Ok(filled);
        }
        let Some(place) = at.checked_add(filled as u64) else {
            break;
        };
        match file.read_some(place, &mut buf[filled..]) {
            Ok(0) => return Ok(filled),
            Ok(count) => filled += count,
            Err(error) if error.kind() == ErrorKind::Interrupted => {}
            Err(error) => return Err(error),
        }
    }
    Err(io::Error::from(ErrorKind::TimedOut))
}
