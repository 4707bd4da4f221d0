//! How a run begins with its journal.
ghost use Rattle.std.specs.Prelude.{◌≡◌, ◌≤◌, false, IfOk, IfErr};
ghost use Rattle.ix_cli.specs.Commands.{most_nodes};
ghost use Rattle.ix_manage.specs.inside.Opening.{StartsOver, StopsUnstarted};
ghost use Rattle.ix_manage.specs.inside.EarlyEnds.{unstarted_end};

use crate::early_end::EarlyEnd;
use crate::refusal::{JournalRefusal, Refusal};
use ix_expr::Expression;
use ix_manager::{Manager, StartFault};
use ix_outside::Site;
use std::alloc::Global;

/// Attaches the file of this name, and starts the manager of the expression from it.
pub(crate) fn open<S: Site>(
    alloc: Global,
    site: &mut S,
    journal: &str,
    expression: Expression,
    limit: usize,
) -> Result<Manager, EarlyEnd>
    requires least { 1 ≤ limit }
    requires most { limit ≤ most_nodes }
    requires attached { (S.state site.old).attached ≡ false }

    ensures starts { IfOk result (StartsOver expression limit journal.now
        (S.state site.old) (S.state site.new) (S.crashes site.new)) }
    ensures stops { IfErr result (StopsUnstarted expression limit journal.now
        (S.state site.old) (S.state site.new) (S.crashes site.new)) }
{
    site.attach(journal)?;
    Ok(Manager::start(alloc, site, expression, limit)?)
}

impl From<StartFault> for EarlyEnd {
    ghost from_gives = { λ fault end. end ≡ unstarted_end fault };

    fn from(fault: StartFault) -> EarlyEnd {
        match fault {
            StartFault::Large { limit } => EarlyEnd::Refused(Refusal::Large { limit }),
            StartFault::Disk => EarlyEnd::Refused(Refusal::Disk),
            StartFault::Foreign => EarlyEnd::Refused(Refusal::Journal(JournalRefusal::Foreign)),
            StartFault::Other { kept } => EarlyEnd::OtherExpression { kept },
            StartFault::Damaged { at } => {
                EarlyEnd::Refused(Refusal::Journal(JournalRefusal::Damaged { at }))
            }
            StartFault::Many => EarlyEnd::Refused(Refusal::Journal(JournalRefusal::Many)),
            StartFault::Word { number } => {
                EarlyEnd::Refused(Refusal::Journal(JournalRefusal::Word { number }))
            }
            StartFault::Heavy { number, limit } => {
                EarlyEnd::Refused(Refusal::Journal(JournalRefusal::Heavy { number, limit }))
            }
            StartFault::Memory => EarlyEnd::Refused(Refusal::Memory),
        }
    }
}
