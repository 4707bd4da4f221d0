//! Takes the events of a site one by one.
ghost use Rattle.std.specs.Prelude.{◌≡◌, ◌^◌, ◌<◌, ◌≤◌, true, false, length};
ghost use Rattle.ix_outside.specs.Crashes.{stretch_of};
ghost use Rattle.ix_cli.specs.Commands.{most_turns};
ghost use Rattle.ix_manager.specs.inside.OverSite.{FitsSite};
ghost use Rattle.ix_manage.specs.inside.ServeProgress.{OnlyServed, ServesTo, ServesEvent};
ghost use Rattle.ix_manage.specs.inside.Progress.{IsStarted};

use crate::early_end::EarlyEnd;
use crate::event_outcome::{EVENT_ROOM, EventOutcome, outcome_of, piece};
use crate::refusal::Refusal;
use ix_manager::Manager;
use ix_outside::Site;
use std::alloc::Global;

/// Hands the site's events to the manager, as many as `turns` at most, until the run ends.
pub(crate) fn serve_events<S: Site>(
    alloc: Global,
    manager: &mut Manager,
    turns: u64,
    site: &mut S,
) -> Result<(), EarlyEnd>
    requires turns { turns ≤ most_turns }
    requires manager { IsStarted manager.old }
    requires attached { (S.state site.old).attached ≡ true }
    requires fits { FitsSite manager.old (S.state site.old) (S.crashes site.old) }

    ensures serves { ServesTo turns manager.old manager.new
        (stretch_of S.state S.crashes site.old site.new) result }
    ensures site { OnlyServed (S.state site.old) (S.state site.new) }
{
    let mut buffer = [0; EVENT_ROOM];
    for _turn in 0..turns {
        match serve_event(alloc, manager, &mut buffer, site) {
            EventOutcome::More => {}
            EventOutcome::Done => return Ok(()),
            EventOutcome::Cut => return Err(EarlyEnd::Refused(Refusal::Wire)),
            EventOutcome::Failed => return Err(EarlyEnd::Refused(Refusal::Disk)),
        }
    }
    Err(EarlyEnd::Refused(Refusal::Turns))
}

fn serve_event<S: Site>(
    alloc: Global,
    manager: &mut Manager,
    buffer: &mut [u8],
    site: &mut S,
) -> EventOutcome
    requires buffer { length buffer.old ≡ EVENT_ROOM }
    requires going { manager.old.ended ≡ false }
    requires tickets { manager.old.machine.number < 2 ^ 63 }
    requires attached { (S.state site.old).attached ≡ true }
    requires fits { FitsSite manager.old (S.state site.old) (S.crashes site.old) }

    ensures outcome { ServesEvent manager.old manager.new
        (stretch_of S.state S.crashes site.old site.new) result }
    ensures site { OnlyServed (S.state site.old) (S.state site.new) }
{
    let event = match site.next(buffer) {
        Ok(event) => event,
        Err(_) => return EventOutcome::Cut,
    };
    let go = manager.handle(alloc, event, piece(event.kind, buffer), site);
    outcome_of(false, go, event.kind)
}
