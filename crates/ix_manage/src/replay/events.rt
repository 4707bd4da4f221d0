//! Takes the events of a script one by one.
ghost use Rattle.std.specs.Prelude.{◌≡◌, ◌≤◌, true, length};
ghost use Rattle.ix_cli.specs.Commands.{most_turns};
ghost use Rattle.ix_script.specs.inside.Site.{playing};
ghost use Rattle.ix_manage.specs.inside.ReplayProgress.{FitsDisk, IsAtStart, IsBetween};
ghost use Rattle.ix_manage.specs.inside.ReplayProgress.{OnlyPlays, PlaysEvent, TakesEvents};
ghost use Rattle.ix_manage.specs.inside.ReplayProgress.{disk_stretch, player};
ghost use Rattle.ix_manage.specs.inside.Progress.{IsStarted};

use crate::early_end::EarlyEnd;
use crate::event_outcome::{EVENT_ROOM, EventOutcome, outcome_of, piece};
use crate::refusal::Refusal;
use ix_manager::Manager;
use ix_outside::{Sink, Site};
use ix_script::ScriptSite;
use std::alloc::Global;

/// Hands the script's events to the manager, as many as `turns` at most, until the run ends.
pub(crate) fn take_events<S: Site, K: Sink>(
    alloc: Global,
    manager: &mut Manager,
    turns: u64,
    site: &mut ScriptSite<'_, S, K>,
) -> Result<(), EarlyEnd>
    requires turns { turns ≤ most_turns }
    requires manager { IsStarted manager.old }
    requires player { IsAtStart (player S.state K.state site.old) }
    requires attached { (S.state (playing site.old).site).attached ≡ true }
    requires fits { FitsDisk S.state S.crashes manager.old (playing site.old).site }

    ensures leaves { TakesEvents turns manager.old (player S.state K.state site.old)
        manager.new (player S.state K.state site.new)
        (disk_stretch S.state S.crashes (playing site.old).site (playing site.new).site) result }
    ensures plays { OnlyPlays (player S.state K.state site.old) (player S.state K.state site.new) }
    ensures same_sink { (playing site.new).sink_loan ≡ (playing site.old).sink_loan }
    ensures same_site { (playing site.new).site_loan ≡ (playing site.old).site_loan }
{
    let mut buffer = [0; EVENT_ROOM];
    for _turn in 0..turns {
        match take_event(alloc, manager, &mut buffer, site) {
            EventOutcome::More => {}
            EventOutcome::Done => return Ok(()),
            EventOutcome::Cut => return Err(EarlyEnd::Output),
            EventOutcome::Failed => return Err(EarlyEnd::Refused(Refusal::Disk)),
        }
    }
    Err(EarlyEnd::Refused(Refusal::Turns))
}

fn take_event<S: Site, K: Sink>(
    alloc: Global,
    manager: &mut Manager,
    buffer: &mut [u8],
    site: &mut ScriptSite<'_, S, K>,
) -> EventOutcome
    requires buffer { length buffer.old ≡ EVENT_ROOM }
    requires between { IsBetween manager.old (player S.state K.state site.old) }
    requires attached { (S.state (playing site.old).site).attached ≡ true }
    requires fits { FitsDisk S.state S.crashes manager.old (playing site.old).site }

    ensures outcome { PlaysEvent manager.old (player S.state K.state site.old)
        manager.new (player S.state K.state site.new)
        (disk_stretch S.state S.crashes (playing site.old).site (playing site.new).site) result }

    ensures plays { OnlyPlays (player S.state K.state site.old) (player S.state K.state site.new) }
    ensures same_sink { (playing site.new).sink_loan ≡ (playing site.old).sink_loan }
    ensures same_site { (playing site.new).site_loan ≡ (playing site.old).site_loan }
{
    let event = site.next_event(buffer);
    let go = manager.handle(alloc, event, piece(event.kind, buffer), site);
    outcome_of(site.sink_failed(), go, event.kind)
}
