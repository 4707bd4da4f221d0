//! One run of `renew`, up to the last line that a refusal puts.
ghost use Rattle.std.specs.Prelude.{◌≡◌, ◌≤◌, false};
ghost use Rattle.ix_cli.specs.Commands.{most_nodes};
ghost use Rattle.ix_outside.specs.FilesState.{OnlyFaults};
ghost use Rattle.ix_outside.specs.SinkState.{OnlyPuts};
ghost use Rattle.ix_manage.specs.Around.{around_of};
ghost use Rattle.ix_manage.specs.Ends.{JobOver};
ghost use Rattle.ix_manage.specs.Renewals as spec;
ghost use Rattle.ix_manage.specs.inside.Jobs.{renew_of};
ghost use Rattle.ix_manage.specs.inside.Leaves.{LeavesOutput};
ghost use Rattle.ix_manage.specs.inside.Renewing.{renewal_end};

use crate::early_end::EarlyEnd;
use crate::job::RenewWords;
use crate::load::{load_expression, load_journal};
use crate::refusal::{JournalRefusal, Refusal};
use arrayvec::ArrayVec;
use ix_lines::{append, append_number};
use ix_outside::{Files, Sink, Site};
use ix_renew::{Renewal, RenewalFault};
use std::alloc::Global;

/// Makes of a journal that rests a new one, with a short word in place of its history.
pub(crate) fn renew<F: Files, S: Site, K: Sink>(
    alloc: Global,
    names: RenewWords<'_>,
    files: &mut F,
    site: &mut S,
    out: &mut K,
) -> Result<(), EarlyEnd>
    requires least { 1 ≤ names.limit }
    requires most { names.limit ≤ most_nodes }
    requires attached { (S.state site.old).attached ≡ false }

    ensures leaves { LeavesOutput
        (JobOver
        (around_of (F.state files.old) (F.state files.new) (S.state site.old) (S.state site.new))
        (renew_of names.entry) (S.crashes site.new))
        (K.state out.old) (K.state out.new) result }
    ensures files { OnlyFaults (F.state files.old) (F.state files.new) }
    ensures puts { OnlyPuts (K.state out.old) (K.state out.new) }
{
    let expression = load_expression(alloc, files, names.expression)?;
    let journal = load_journal(alloc, files, names.journal)?;
    let renewal = ix_renew::renew(alloc, site, expression, names.limit, &journal, names.new)?;
    out.put(&renewed_line(renewal))?;
    Ok(())
}

/// Says what the renewed journal stands for, and how many actions it carries.
fn renewed_line(renewal: Renewal) -> ArrayVec<u8, 96>
    ensures { result.items ≡ spec.renewed_line renewal.actions renewal.boots renewal.carried }
{
    let mut line = ArrayVec::new();
    append(&mut line, b"renewed ");
    append_number(&mut line, renewal.actions);
    append(&mut line, b" ");
    append_number(&mut line, renewal.boots);
    append(&mut line, b" carried ");
    append_number(&mut line, renewal.carried as u64);
    append(&mut line, b"\n");
    line
}

impl From<RenewalFault> for EarlyEnd {
    ghost from_gives = { λ fault end. end ≡ renewal_end fault };

    fn from(fault: RenewalFault) -> EarlyEnd {
        let why = match fault {
            RenewalFault::Large { limit } => return EarlyEnd::Refused(Refusal::Large { limit }),
            RenewalFault::Other { kept } => return EarlyEnd::OtherExpression { kept },
            RenewalFault::Disk => return EarlyEnd::Refused(Refusal::Disk),
            RenewalFault::Memory => return EarlyEnd::Refused(Refusal::Memory),
            RenewalFault::Foreign => JournalRefusal::Foreign,
            RenewalFault::Unopened => JournalRefusal::Unopened,
            RenewalFault::Damaged { at } => JournalRefusal::Damaged { at },
            RenewalFault::Many => JournalRefusal::Many,
            RenewalFault::Word { number } => JournalRefusal::Word { number },
            RenewalFault::Heavy { number, limit } => JournalRefusal::Heavy { number, limit },
            RenewalFault::There => JournalRefusal::There,
        };
        EarlyEnd::Refused(Refusal::Journal(why))
    }
}
