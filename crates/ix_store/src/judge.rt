//! What a file is, from its front.

ghost use Rattle.std.specs.Prelude.{◌≡◌, MatchResult};
ghost use Rattle.ix_store.specs.inside.Steps.{IsJudged, KeepsOther, RefusesHead};

use crate::OpenFault;
use ix_journal::{Head, header_of};
use std::alloc::Global;

/// The first gate of a journal of the text that begins with these bytes, or None where it is to be
/// made anew.
pub(crate) fn judge(alloc: Global, head: &[u8], text: &[u8]) -> Result<Option<usize>, OpenFault>
    ensures { MatchResult result
        (IsJudged head.now text.now)
        (RefusesHead head.now text.now) }
{
    match header_of(head) {
        Head::Unfinished => Ok(None),
        Head::Foreign => Err(OpenFault::NotJournal),
        Head::Unopened { text: kept } => {
            compare(alloc, kept, text)?;
            Ok(None)
        }
        Head::Ready { text: kept, gate } => {
            compare(alloc, kept, text)?;
            Ok(Some(gate))
        }
    }
}

/// Refuses a file that keeps another text.
fn compare(alloc: Global, kept: &[u8], text: &[u8]) -> Result<(), OpenFault>
    ensures { MatchResult result (λ _. kept.now ≡ text.now) (KeepsOther kept.now text.now) }
{
    if kept == text {
        return Ok(());
    }
    let kept = Vec::from_slice(alloc, kept)?;
    Err(OpenFault::OtherExpression { kept })
}
