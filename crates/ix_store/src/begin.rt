//! A journal that is made anew.

ghost use Rattle.std.specs.Prelude.{◌≡◌, ◌<◌, ◌≤◌, [], ◌∷◌, ◌++◌, true, ℕ, List, length, take};
ghost use Rattle.std.specs.Prelude.{drop, OnOk, IfErr};
ghost use Rattle.std.specs.Option.{ForSome};
ghost use Rattle.ix_outside.specs.Counts.{CountsFault};
ghost use Rattle.ix_outside.specs.Crashes.{LeavesTheFile, stretch_of};
ghost use Rattle.ix_outside.specs.Disk.{OfFile, MakesFile};
ghost use Rattle.ix_outside.specs.inside.DiskCalls.{DiskCalls, LeavesOnly};
ghost use Rattle.ix_store.specs.Opening.{IsNew};
ghost use Rattle.ix_store.specs.inside.Reading.{IsHeadOf};
ghost use Rattle.ix_store.specs.inside.Refusals.{TellsNothing};
ghost use Rattle.ix_journal.specs.Format.{header};
ghost use Rattle.ix_journal.specs.inside.Writing.{digit_of};
ghost use Rattle.ix_store.specs.inside.Starting.{CountsOpening};
ghost use Rattle.ix_store.specs.inside.Steps.{IsBegun};

use crate::OpenFault;
use crate::write::write_through;
use ix_journal::{CLOSED, OPEN, Version, header_bytes};
use ix_outside::{DiskFailed, Site};
use std::alloc::Global;

/// Makes the journal of this text anew, without records and with a header of this version, over a
/// file that begins with these bytes. Its head gate is opened last.
pub(crate) fn begin<S: Site>(
    alloc: Global,
    site: &mut S,
    bytes: &[u8],
    version: Version,
    text: &[u8],
) -> Result<(), OpenFault>
    requires attached { (S.state site.old).attached ≡ true }
    requires short { length text.now < 65536 }
    requires read { OfFile (IsHeadOf bytes.now) (S.state site.old).disk }
    requires is_new { OfFile (λ file. IsNew file text.now) (S.state site.old).disk }
    requires settled { LeavesTheFile (S.state site.old).disk (S.crashes site.old).now }
    ensures begun { OnOk result (MakesFile
        (λ _ file. file ≡ OPEN ∷ header (digit_of version) text.now ++ CLOSED ∷ [])
        (S.state site.old).disk (S.state site.new).disk) }
    ensures settled { OnOk result
        (LeavesTheFile (S.state site.new).disk (S.crashes site.new).now) }
    ensures images { ForSome (S.state site.old).disk (λ _.
        LeavesOnly (IsBegun text.now) (stretch_of S.state S.crashes site.old site.new)) }
    ensures fault { IfErr result TellsNothing }
    ensures failed { CountsOpening result
        (S.state site.old).counts.disk (S.state site.new).counts.disk }
    ensures calls { DiskCalls (stretch_of S.state S.crashes site.old site.new) }
{
    let header = header_bytes(alloc, version, text)?;
    clear(site, bytes)?;
    write_through(site, 1, &header)?;
    write_through(site, 0, &[OPEN])?;
    Ok(())
}

/// Leaves a closed head gate of a file that begins with these bytes, and nothing else.
fn clear<S: Site>(site: &mut S, bytes: &[u8]) -> Result<(), DiskFailed>
    requires attached { (S.state site.old).attached ≡ true }
    requires read { OfFile (IsHeadOf bytes.now) (S.state site.old).disk }
    requires settled { LeavesTheFile (S.state site.old).disk (S.crashes site.old).now }
    ensures cleared { OnOk result (MakesFile (λ _ file. file ≡ CLOSED ∷ [])
        (S.state site.old).disk (S.state site.new).disk) }
    ensures settled { OnOk result
        (LeavesTheFile (S.state site.new).disk (S.crashes site.new).now) }
    ensures images { ForSome (S.state site.old).disk (λ disk. (text : List ℕ)
        → length text < 65536 → IsNew disk.file text
        → LeavesOnly (IsBegun text) (stretch_of S.state S.crashes site.old site.new)) }
    ensures failed { CountsFault result
        (S.state site.old).counts.disk (S.state site.new).counts.disk }
    ensures calls { DiskCalls (stretch_of S.state S.crashes site.old site.new) }
{
    close_head(site, bytes)?;
    cut_behind_head(site, bytes)?;
    site.sync()
}

/// Closes the head gate of a file that begins with these bytes, unless it holds 00.
fn close_head<S: Site>(site: &mut S, bytes: &[u8]) -> Result<(), DiskFailed>
    requires attached { (S.state site.old).attached ≡ true }
    requires read { OfFile (IsHeadOf bytes.now) (S.state site.old).disk }
    requires settled { LeavesTheFile (S.state site.old).disk (S.crashes site.old).now }
    ensures closed { OnOk result (MakesFile (λ before after. after ≡ CLOSED ∷ drop 1 before)
        (S.state site.old).disk (S.state site.new).disk) }
    ensures images { ForSome (S.state site.old).disk (λ disk. (text : List ℕ)
        → length text < 65536 → IsNew disk.file text
        → LeavesOnly (IsBegun text) (stretch_of S.state S.crashes site.old site.new)) }
    ensures failed { CountsFault result
        (S.state site.old).counts.disk (S.state site.new).counts.disk }
    ensures calls { DiskCalls (stretch_of S.state S.crashes site.old site.new) }
{
    if bytes.starts_with(&[CLOSED]) {
        return Ok(());
    }
    site.write_at(0, &[CLOSED])
}

/// Cuts the file behind its head gate, if it was longer as it was read.
fn cut_behind_head<S: Site>(site: &mut S, bytes: &[u8]) -> Result<(), DiskFailed>
    requires attached { (S.state site.old).attached ≡ true }
    requires head { OfFile (λ file. 1 ≤ length file) (S.state site.old).disk }
    requires read { OfFile (λ file. length bytes.now ≤ 1 → length file ≤ 1)
        (S.state site.old).disk }
    ensures cut { OnOk result (MakesFile (λ before after. after ≡ take 1 before)
        (S.state site.old).disk (S.state site.new).disk) }
    ensures images { (text : List ℕ)
        → ((image : List ℕ) → (S.crashes site.old).now image → IsBegun text image)
        → LeavesOnly (IsBegun text) (stretch_of S.state S.crashes site.old site.new) }
    ensures failed { CountsFault result
        (S.state site.old).counts.disk (S.state site.new).counts.disk }
    ensures calls { DiskCalls (stretch_of S.state S.crashes site.old site.new) }
{
    if bytes.len() <= 1 {
        return Ok(());
    }
    site.cut(1)
}
