//! The journal that a renewal makes.

ghost use Rattle.std.specs.Prelude.{◌≡◌, ◌≢◌, ◌⊎◌, ◌<◌, ◌≤◌, ◌^◌, [], ◌∷◌, ◌++◌, true, All, IfErr};
ghost use Rattle.std.specs.Prelude.{IfOk, OnOk, length, drop};
ghost use Rattle.std.specs.Option.{ForSome};
ghost use Rattle.ix_values.specs.Texts.{IsAction};
ghost use Rattle.ix_outside.specs.Counts.{CountsFault};
ghost use Rattle.ix_outside.specs.Crashes.{LeavesTheFile, stretch_of};
ghost use Rattle.ix_outside.specs.Disk.{MakesFile, OfFile, Stays};
ghost use Rattle.ix_outside.specs.inside.DiskCalls.{DiskCalls, LeavesOnly};
ghost use Rattle.ix_journal.specs.Format.{header, renewed_journal};
ghost use Rattle.ix_store.specs.inside.Reading.{IsHeadOf};
ghost use Rattle.ix_store.specs.inside.Refusals.{TellsNothing};
ghost use Rattle.ix_store.specs.inside.Renewing.{CountsRenewal, IsRenewing, SettlesRenewal};
ghost use Rattle.ix_store.specs.inside.Renewing.{TellsFile};
ghost use Rattle.ix_store.specs.inside.Renewing.{renew_fault};
ghost use Rattle.ix_store.specs.inside.Starting.{CountsOpening, SettlesOpening};
ghost use Rattle.ix_store.specs.declared.making.RenewFault.TheVariants as fault;

use crate::OpenFault;
use crate::begin::begin;
use crate::read::read_head;
use crate::write::write_through;
use ix_journal::{CLOSED, FRONT_LENGTH, OPEN, Version, renewed_bytes};
use ix_outside::{DiskFailed, Site};
use ix_values::Action;
use std::alloc::{AllocError, Global};

/// Why a renewal made no journal.
#[derive(Clone, Copy, Debug, PartialEq, Eq)]
pub enum RenewFault {
    /// The file has a byte.
    There,
    /// A call of the disk failed; the count of disk faults rose.
    Disk,
    /// There was no memory for the front of the file, the header or the records.
    Memory,
}

/// Makes of the attached file, which has no byte, the journal of this text that carries these
/// actions in place of so many actions and boots of the journals before.
///
/// What was left unsynced before is brought to the disk first. `There` comes exactly where the file
/// has a byte then. Such a file stays, whatever the answer. Otherwise a journal without records is
/// made, the records are written behind its closed gate, and this gate is opened last: whatever
/// fails, and whenever the site stops, what is left opens as a journal without records, or is the
/// whole new one.
pub fn renew<S: Site>(
    alloc: Global,
    site: &mut S,
    text: &[u8],
    carried: &[Action],
    actions: u64,
    boots: u64,
) -> Result<(), RenewFault>
    requires attached { (S.state site.old).attached ≡ true }
    requires short { length text.now < 65536 }
    requires actions { actions ≤ 2 ^ 63 }
    requires boots { boots ≤ 2 ^ 63 }

    ensures made { OnOk result (MakesFile
        (λ before file. (before ≡ []) × (file ≡ renewed_journal text.now carried.now actions boots))
        (S.state site.old).disk (S.state site.new).disk) }
    ensures refused { IfErr result (λ fault. ForSome (S.state site.old).disk
        (λ disk. TellsFile disk.file fault)) }
    ensures stays { ForSome (S.state site.old).disk (λ disk. disk.file ≢ []
        → MakesFile Stays (S.state site.old).disk (S.state site.new).disk
        × LeavesOnly (S.crashes site.old).now (stretch_of S.state S.crashes site.old site.new)) }
    ensures valid { OnOk result (All IsAction carried.now) }

    // What the disk is left with, whatever the answer.
    ensures settled { SettlesRenewal result (S.state site.new).disk (S.crashes site.new).now }
    ensures images { ForSome (S.state site.old).disk (λ _. LeavesOnly
        (λ image. (S.crashes site.old).now image
        ⊎ IsRenewing text.now (renewed_journal text.now carried.now actions boots) image)
        (stretch_of S.state S.crashes site.old site.new)) }
    ensures failed { CountsRenewal result
        (S.state site.old).counts.disk (S.state site.new).counts.disk }
    ensures calls { DiskCalls (stretch_of S.state S.crashes site.old site.new) }
{
    let head = read_synced(alloc, site)?;
    if !head.is_empty() {
        return Err(RenewFault::There);
    }
    let records = renewed_bytes(alloc, carried, actions, boots)?;
    begin(alloc, site, &head, Version::Renewed, text)?;
    fill(site, text, &records)?;
    Ok(())
}

impl From<OpenFault> for RenewFault {
    ghost from_gives = { λ fault why. why ≡ renew_fault fault };

    fn from(fault: OpenFault) -> RenewFault {
        match fault {
            OpenFault::Disk => RenewFault::Disk,
            _ => RenewFault::Memory,
        }
    }
}

impl From<AllocError> for RenewFault {
    ghost from_gives = { λ _ why. why ≡ fault.Memory };

    fn from(_: AllocError) -> RenewFault {
        RenewFault::Memory
    }
}

impl From<DiskFailed> for RenewFault {
    ghost from_gives = { λ _ why. why ≡ fault.Disk };

    fn from(_: DiskFailed) -> RenewFault {
        RenewFault::Disk
    }
}

/// Syncs, and reads the front of the file. Then just the file may be left.
fn read_synced<S: Site>(alloc: Global, site: &mut S) -> Result<Vec<u8>, OpenFault>
    requires { (S.state site.old).attached ≡ true }
    ensures head { IfOk result (λ head. OfFile (IsHeadOf head.items) (S.state site.old).disk) }
    ensures fault { IfErr result TellsNothing }
    ensures settled { SettlesOpening result (S.state site.new).disk (S.crashes site.new).now }
    ensures stays { MakesFile Stays (S.state site.old).disk (S.state site.new).disk }
    ensures images { ForSome (S.state site.old).disk (λ _.
        LeavesOnly (S.crashes site.old).now (stretch_of S.state S.crashes site.old site.new)) }
    ensures failed { CountsOpening result
        (S.state site.old).counts.disk (S.state site.new).counts.disk }
    ensures calls { DiskCalls (stretch_of S.state S.crashes site.old site.new) }
{
    site.sync()?;
    read_head(alloc, site)
}

/// Writes the records of a renewed journal, which begin with an open gate, behind the closed gate
/// of one without records, and opens this gate last.
fn fill<S: Site>(site: &mut S, text: &[u8], records: &[u8]) -> Result<(), DiskFailed>
    requires attached { (S.state site.old).attached ≡ true }
    requires short { length text.now < 65536 }
    requires begun { OfFile (λ file. file ≡ OPEN ∷ header 51 text.now ++ CLOSED ∷ [])
        (S.state site.old).disk }
    requires settled { LeavesTheFile (S.state site.old).disk (S.crashes site.old).now }
    requires open_front { records.now ≡ OPEN ∷ drop 1 records.now }
    ensures filled { OnOk result (MakesFile
        (λ _ file. file ≡ OPEN ∷ header 51 text.now ++ records.now)
        (S.state site.old).disk (S.state site.new).disk) }
    ensures settled { OnOk result
        (LeavesTheFile (S.state site.new).disk (S.crashes site.new).now) }
    ensures images { ForSome (S.state site.old).disk (λ _. LeavesOnly
        (IsRenewing text.now (OPEN ∷ header 51 text.now ++ records.now))
        (stretch_of S.state S.crashes site.old site.new)) }
    ensures failed { CountsFault result
        (S.state site.old).counts.disk (S.state site.new).counts.disk }
    ensures calls { DiskCalls (stretch_of S.state S.crashes site.old site.new) }
{
    let gate = (FRONT_LENGTH + text.len()) as u64;
    write_through(site, gate + 1, &records[1..])?;
    write_through(site, gate, &[OPEN])?;
    Ok(())
}
