//! One run of `replay`, up to the last line that a refusal puts.
ghost use Rattle.std.specs.Prelude.{◌≡◌, ◌≤◌, List, true, false};
ghost use Rattle.ix_cli.specs.Commands.{most_nodes, most_turns};
ghost use Rattle.ix_outside.specs.Contents.{GivenEvent};
ghost use Rattle.ix_outside.specs.FilesState.{OnlyFaults};
ghost use Rattle.ix_outside.specs.SinkState.{OnlyPuts};
ghost use Rattle.ix_manager.specs.inside.OverSite.{FitsSite};
ghost use Rattle.ix_script.specs.Events.{HasEvents};
ghost use Rattle.ix_manage.specs.Around.{around_of};
ghost use Rattle.ix_manage.specs.Ends.{JobOver};
ghost use Rattle.ix_manage.specs.inside.Jobs.{replay_of};
ghost use Rattle.ix_manage.specs.inside.Leaves.{LeavesOutput};
ghost use Rattle.ix_manage.specs.inside.Playing.{PlaysOver};
ghost use Rattle.ix_manage.specs.inside.ReplayProgress.{OnlyUsesDisk, ReplaysOn, disk_stretch};
ghost use Rattle.ix_manage.specs.inside.Progress.{IsStarted, opening_at};

mod events;

use crate::early_end::EarlyEnd;
use crate::history::history_line;
use crate::job::ReplayWords;
use crate::load::{load_expression, load_script, read_script};
use crate::open::open;
use events::take_events;
use ix_expr::Expression;
use ix_manager::Manager;
use ix_outside::{Files, Sink, Site};
use ix_script::{Script, ScriptSite};
use std::alloc::Global;

/// A refusal's line isn't put yet.
pub(crate) fn replay<F: Files, S: Site, K: Sink>(
    alloc: Global,
    names: ReplayWords<'_>,
    files: &mut F,
    site: &mut S,
    out: &mut K,
) -> Result<(), EarlyEnd>
    requires least { 1 ≤ names.limit }
    requires most { names.limit ≤ most_nodes }
    requires turns { names.turns ≤ most_turns }
    requires attached { (S.state site.old).attached ≡ false }

    ensures leaves { LeavesOutput
        (JobOver
        (around_of (F.state files.old) (F.state files.new) (S.state site.old) (S.state site.new))
        (replay_of names.entry) (S.crashes site.new))
        (K.state out.old) (K.state out.new) result }
    ensures files { OnlyFaults (F.state files.old) (F.state files.new) }
    ensures puts { OnlyPuts (K.state out.old) (K.state out.new) }
{
    let expression = load_expression(alloc, files, names.expression)?;
    let bytes = load_script(alloc, files, names.script)?;
    let script = read_script(&bytes)?;
    play(alloc, names, expression, script, site, out)
}

/// Attaches the journal, starts the manager from it and runs the script.
fn play<S: Site, K: Sink>(
    alloc: Global,
    names: ReplayWords<'_>,
    expression: Expression,
    script: Script<'_>,
    site: &mut S,
    out: &mut K,
) -> Result<(), EarlyEnd>
    requires least { 1 ≤ names.limit }
    requires most { names.limit ≤ most_nodes }
    requires turns { names.turns ≤ most_turns }
    requires events { (events : List GivenEvent) × HasEvents script events }
    requires attached { (S.state site.old).attached ≡ false }

    ensures leaves { LeavesOutput
        (PlaysOver expression names.entry script.entry
        (S.state site.old) (S.state site.new) (S.crashes site.new))
        (K.state out.old) (K.state out.new) result }
    ensures puts { OnlyPuts (K.state out.old) (K.state out.new) }
{
    let mut manager = open(alloc, site, names.journal, expression, names.limit)?;
    run_script(alloc, &mut manager, names.turns, script, site, out)
}

/// Puts the line of the history in front: the manager was just started.
fn run_script<S: Site, K: Sink>(
    alloc: Global,
    manager: &mut Manager,
    turns: u64,
    script: Script<'_>,
    site: &mut S,
    out: &mut K,
) -> Result<(), EarlyEnd>
    requires turns { turns ≤ most_turns }
    requires manager { IsStarted manager.old }
    requires attached { (S.state site.old).attached ≡ true }
    requires fits { FitsSite manager.old (S.state site.old) (S.crashes site.old) }

    ensures leaves { LeavesOutput
        (ReplaysOn (opening_at manager.old) turns script.entry manager.new.machine
        (disk_stretch S.state S.crashes site.old site.new))
        (K.state out.old) (K.state out.new) result }
    ensures site { OnlyUsesDisk (S.state site.old) (S.state site.new) }
    ensures puts { OnlyPuts (K.state out.old) (K.state out.new) }
{
    out.put(&history_line(manager.count()))?;
    let mut all = ScriptSite::new(script, site, out);
    take_events(alloc, manager, turns, &mut all)
}
