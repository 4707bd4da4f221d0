//! The line that is put before any event is taken.
ghost use Rattle.std.specs.Prelude.{◌≡◌};
ghost use Rattle.ix_manage.specs.Session as spec;

use arrayvec::ArrayVec;
use ix_lines::{append, append_number};

/// Says how many actions were confirmed.
pub(crate) fn history_line(count: u64) -> ArrayVec<u8, 64>
    ensures { result.items ≡ spec.length_line count }
{
    let mut line = ArrayVec::new();
    append(&mut line, b"history ");
    append_number(&mut line, count);
    append(&mut line, b"\n");
    line
}
