//! Bytes that are written and brought to the disk.

ghost use Rattle.std.specs.Prelude.{◌≡◌, ◌≤◌, true, length, OnOk, OnErr};
ghost use Rattle.std.specs.Option.{ForSome};
ghost use Rattle.ix_outside.specs.Counts.{CountsFault};
ghost use Rattle.ix_outside.specs.Crashes.{LeavesTheFile, stretch_of};
ghost use Rattle.ix_outside.specs.Disk.{OfFile, MakesFile, Overwrites};
ghost use Rattle.ix_outside.specs.inside.DiskCalls.{DiskCalls, LeavesOnly};
ghost use Rattle.ix_store.specs.inside.Steps.{MaybeTorn};

use ix_outside::{DiskFailed, Site};

/// Writes the bytes at this place, and syncs. After Ok just the file with these bytes may be left.
pub(crate) fn write_through<S: Site>(site: &mut S, at: u64, bytes: &[u8]) -> Result<(), DiskFailed>
    requires attached { (S.state site.old).attached ≡ true }
    requires place { OfFile (λ file. at ≤ length file) (S.state site.old).disk }
    ensures written { OnOk result (MakesFile (Overwrites at bytes.now)
        (S.state site.old).disk (S.state site.new).disk) }
    ensures settled { OnOk result
        (LeavesTheFile (S.state site.new).disk (S.crashes site.new).now) }
    ensures images { ForSome (S.state site.old).disk (λ _.
        LeavesOnly (MaybeTorn at (length bytes.now) (S.crashes site.old).now)
        (stretch_of S.state S.crashes site.old site.new)) }
    ensures failed { CountsFault result
        (S.state site.old).counts.disk (S.state site.new).counts.disk }
    ensures calls { DiskCalls (stretch_of S.state S.crashes site.old site.new) }
{
    site.write_at(at, bytes)?;
    site.sync()
}
