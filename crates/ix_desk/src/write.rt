//! Numbers in lines.
ghost use Rattle.std.specs.Prelude.{◌≡◌, ◌++◌, OnOk, decimal, get_or};

use itoa::Buffer;
use std::alloc::AllocError;

/// Where the node starts in the text.
pub(crate) fn write_place(
    out: &mut Vec<u8>,
    places: &[usize],
    node: usize,
) -> Result<(), AllocError>
    ensures { OnOk result
        (out.new.items ≡ out.old.items ++ decimal (get_or places.now node 0)) }
{
    write_number(out, places.get(node).copied().unwrap_or(0))
}

pub(crate) fn write_number(out: &mut Vec<u8>, number: usize) -> Result<(), AllocError>
    ensures { OnOk result (out.new.items ≡ out.old.items ++ decimal number) }
{
    let mut buffer = Buffer::new();
    out.extend_from_slice(buffer.format(number).as_bytes())
}
