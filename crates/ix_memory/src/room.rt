//! Pushes and copies for which there is room.
ghost use Rattle.std.specs.Prelude.{◌≡◌, ◌<◌, ◌≤◌, ◌+◌, ◌++◌, [], ◌∷◌, length, take, drop, vec_len};
ghost use Rattle.std.specs.Prelude.{vec_capacity};

/// Puts an item behind the others, which takes no memory.
pub(crate) fn put<T: Copy>(items: &mut Vec<T>, item: T)
    requires { vec_len items.old < vec_capacity items.old }
    ensures items { items.new.items ≡ items.old.items ++ item ∷ [] }
    ensures len { vec_len items.new ≡ vec_len items.old + 1 }
    ensures capacity { vec_capacity items.old ≤ vec_capacity items.new }
{
    let pushed = items.push(item);
    prove!(pushed.is_ok());
}

pub(crate) fn copy_text(bytes: &[u8], start: usize, count: usize, buf: &mut [u8])
    requires within { start + count ≤ length bytes.now }
    requires fits { count ≤ length buf.old }
    ensures front { take count buf.new ≡ take count (drop start bytes.now) }
    ensures rest { drop count buf.new ≡ drop count buf.old }
{
    buf[..count].copy_from_slice(&bytes[start..start + count]);
}
