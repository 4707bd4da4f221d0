//! The bytes of a file.
ghost use Rattle.std.specs.Prelude.{◌≡◌, ◌≤◌, ◌+◌, ◌-◌, min, length, take, drop, vec_len};
ghost use Rattle.std.specs.Prelude.{vec_capacity};
ghost use Rattle.ix_memory.specs.inside.MemorySiteState.{written};

use crate::room::copy_text;

/// Reads the bytes from `at` on into the front of the buffer, and gives their number.
pub(crate) fn read(image: &[u8], at: u64, buf: &mut [u8]) -> usize
    ensures count { result ≡ min (length buf.old) (length image.now - at) }
    ensures front { take result buf.new ≡ take result (drop at image.now) }
    ensures rest { drop result buf.new ≡ drop result buf.old }
{
    let start = at as usize;
    if start >= image.len() {
        return 0;
    }
    let count = buf.len().min(image.len() - start);
    copy_text(image, start, count, buf);
    count
}

/// Writes the bytes at `at`, over what is there and past the end. It takes no memory.
pub(crate) fn write(image: &mut Vec<u8>, at: usize, bytes: &[u8])
    requires at { at ≤ length image.old.items }
    requires room { vec_len image.old + length bytes.now ≤ vec_capacity image.old }
    ensures items { image.new.items ≡ written at bytes.now image.old.items }
    ensures capacity { vec_capacity image.old ≤ vec_capacity image.new }
    ensures len { vec_len image.new ≤ vec_len image.old + length bytes.now }
{
    let over = bytes.len().min(image.len() - at);
    write_over(image, at, &bytes[..over]);
    let taken = image.extend_from_slice(&bytes[over..]);
    prove!(taken.is_ok());
}

fn write_over(image: &mut [u8], at: usize, bytes: &[u8])
    requires { at + length bytes.now ≤ length image.old }
    ensures { image.new ≡ written at bytes.now image.old }
{
    image[at..at + bytes.len()].copy_from_slice(bytes);
}
