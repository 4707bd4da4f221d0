//! The front of a file, as it stands on the disk.

ghost use Rattle.std.specs.Prelude.{◌≡◌, ◌+◌, ℕ, true, take, IfOk, IfErr, OnOk};
ghost use Rattle.ix_outside.specs.Disk.{OfFile};
ghost use Rattle.ix_store.specs.inside.Reading.{IsHeadOf, OnlyReads};
ghost use Rattle.ix_store.specs.inside.Refusals.{TellsNothing};
ghost use Rattle.ix_store.specs.inside.Starting.{CountsOpening};
ghost use Rattle.ix_outside.specs.Crashes.{stretch_of};

use crate::OpenFault;
use ix_journal::{FRONT_LENGTH, text_length};
use ix_outside::Site;
use std::alloc::Global;

/// The front of the file that tells its kind: what stands in front of the text of its header, a
/// text of the length told there, the gate behind it and one byte more, as far as they are there.
pub(crate) fn read_head<S: Site>(alloc: Global, site: &mut S) -> Result<Vec<u8>, OpenFault>
    requires { (S.state site.old).attached ≡ true }
    ensures head { IfOk result (λ head. OfFile (IsHeadOf head.items) (S.state site.old).disk) }
    ensures reads { OnlyReads (stretch_of S.state S.crashes site.old site.new) }
    ensures fault { IfErr result TellsNothing }
    ensures failed { CountsOpening result
        (S.state site.old).counts.disk (S.state site.new).counts.disk }
{
    let mut head = Vec::new(alloc);
    read_more(alloc, site, &mut head, FRONT_LENGTH)?;
    if head.len() != FRONT_LENGTH {
        return Ok(head);
    }
    let length = text_length(&head);
    read_more(alloc, site, &mut head, length)?;
    read_more(alloc, site, &mut head, 2)?;
    Ok(head)
}

/// Reads so many more bytes of the file of which these are the front, as far as they are there.
fn read_more<S: Site>(
    alloc: Global,
    site: &mut S,
    front: &mut Vec<u8>,
    count: usize,
) -> Result<(), OpenFault>
    requires { (S.state site.old).attached ≡ true }
    ensures front { OnOk result (OfFile (λ file. (so_far : ℕ) → front.old.items ≡ take so_far file
        → front.new.items ≡ take (so_far + count) file) (S.state site.old).disk) }
    ensures reads { OnlyReads (stretch_of S.state S.crashes site.old site.new) }
    ensures fault { IfErr result TellsNothing }
    ensures failed { CountsOpening result
        (S.state site.old).counts.disk (S.state site.new).counts.disk }
{
    let mut piece = vec![in alloc; 0; count]?;
    let read = site.read_at(front.len() as u64, &mut piece)?;
    front.extend_from_slice(&piece[..read])?;
    Ok(())
}
