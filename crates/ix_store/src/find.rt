//! What the attached file is to a store.

ghost use Rattle.std.specs.Prelude.{◌≡◌, true, IfOk, MatchResult};
ghost use Rattle.std.specs.Option.{ForSome};
ghost use Rattle.ix_outside.specs.Disk.{OfFile, MakesFile, Stays};
ghost use Rattle.ix_outside.specs.inside.DiskCalls.{DiskCalls, LeavesOnly};
ghost use Rattle.ix_store.specs.inside.Reading.{OnlyReads};
ghost use Rattle.ix_store.specs.inside.Refusals.{RefusesFileAs};
ghost use Rattle.ix_store.specs.inside.Starting.{CountsOpening, SettlesOpening};
ghost use Rattle.ix_store.specs.inside.Steps.{IsFound, IsFoundSound};
ghost use Rattle.ix_outside.specs.Crashes.{stretch_of};

use crate::OpenFault;
use crate::judge::judge;
use crate::read::read_head;
use crate::records::{Kept, read_records};
use ix_outside::Site;
use std::alloc::Global;

/// A file that isn't refused.
#[derive(Drop)]
pub(crate) enum Found {
    /// It is to be made anew. It begins with these bytes.
    New { head: Vec<u8> },
    /// It is a journal of the text.
    Journal(Kept),
}

/// Syncs, and finds out what the file is. Then just the file may be left.
pub(crate) fn sync_and_find<S: Site>(
    alloc: Global,
    site: &mut S,
    text: &[u8],
) -> Result<Found, OpenFault>
    requires { (S.state site.old).attached ≡ true }
    ensures file { MatchResult result
        (λ found. OfFile (IsFound text.now found) (S.state site.old).disk)
        (λ fault. OfFile (λ file. RefusesFileAs file text.now fault) (S.state site.old).disk) }
    ensures sound { IfOk result IsFoundSound }
    ensures settled { SettlesOpening result (S.state site.new).disk (S.crashes site.new).now }
    ensures stays { MakesFile Stays (S.state site.old).disk (S.state site.new).disk }
    ensures images { ForSome (S.state site.old).disk (λ _.
        LeavesOnly (S.crashes site.old).now (stretch_of S.state S.crashes site.old site.new)) }
    ensures failed { CountsOpening result
        (S.state site.old).counts.disk (S.state site.new).counts.disk }
    ensures calls { DiskCalls (stretch_of S.state S.crashes site.old site.new) }
{
    site.sync()?;
    find(alloc, site, text)
}

/// Finds out what the file is: its kind, then whether it keeps the text, then its records, and
/// whether there is room for another boot.
fn find<S: Site>(alloc: Global, site: &mut S, text: &[u8]) -> Result<Found, OpenFault>
    requires { (S.state site.old).attached ≡ true }
    ensures file { MatchResult result
        (λ found. OfFile (IsFound text.now found) (S.state site.old).disk)
        (λ fault. OfFile (λ file. RefusesFileAs file text.now fault) (S.state site.old).disk) }
    ensures sound { IfOk result IsFoundSound }
    ensures reads { OnlyReads (stretch_of S.state S.crashes site.old site.new) }
    ensures failed { CountsOpening result
        (S.state site.old).counts.disk (S.state site.new).counts.disk }
{
    let head = read_head(alloc, site)?;
    let Some(first) = judge(alloc, &head, text)? else {
        return Ok(Found::New { head });
    };
    let kept = read_records(alloc, site, &head, first)?;
    if !kept.marks.has_room() {
        return Err(OpenFault::Many);
    }
    Ok(Found::Journal(kept))
}
