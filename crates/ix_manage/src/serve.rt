//! One run of `serve`, up to the last line that a refusal puts.
ghost use Rattle.std.specs.Prelude.{◌≡◌, ◌≤◌, true, false};
ghost use Rattle.ix_outside.specs.Crashes.{stretch_of};
ghost use Rattle.ix_cli.specs.Commands.{most_nodes, most_turns};
ghost use Rattle.ix_outside.specs.FilesState.{OnlyFaults};
ghost use Rattle.ix_outside.specs.SinkState.{OnlyPuts};
ghost use Rattle.ix_manager.specs.inside.OverSite.{FitsSite};
ghost use Rattle.ix_manage.specs.Around.{around_of};
ghost use Rattle.ix_manage.specs.Ends.{JobOver};
ghost use Rattle.ix_manage.specs.inside.Jobs.{serve_of};
ghost use Rattle.ix_manage.specs.inside.Leaves.{LeavesOutput};
ghost use Rattle.ix_manage.specs.inside.Playing.{ServesOver};
ghost use Rattle.ix_manage.specs.inside.ServeProgress.{OnlyServed, ServesOn};
ghost use Rattle.ix_manage.specs.inside.Progress.{IsStarted, opening_at};

mod events;

use crate::early_end::EarlyEnd;
use crate::history::history_line;
use crate::job::ServeWords;
use crate::load::load_expression;
use crate::open::open;
use events::serve_events;
use ix_expr::Expression;
use ix_manager::Manager;
use ix_outside::{Files, Sink, Site};
use std::alloc::Global;

/// A refusal's line isn't put yet.
pub(crate) fn serve<F: Files, S: Site, K: Sink>(
    alloc: Global,
    names: ServeWords<'_>,
    files: &mut F,
    site: &mut S,
    out: &mut K,
) -> Result<(), EarlyEnd>
    requires least { 1 ≤ names.limit }
    requires most { names.limit ≤ most_nodes }
    requires turns { names.turns ≤ most_turns }
    requires attached { (S.state site.old).attached ≡ false }

    ensures leaves { LeavesOutput
        (JobOver
        (around_of (F.state files.old) (F.state files.new) (S.state site.old) (S.state site.new))
        (serve_of names.entry) (S.crashes site.new))
        (K.state out.old) (K.state out.new) result }
    ensures files { OnlyFaults (F.state files.old) (F.state files.new) }
    ensures puts { OnlyPuts (K.state out.old) (K.state out.new) }
{
    let expression = load_expression(alloc, files, names.expression)?;
    begin(alloc, names, expression, site, out)
}

/// Opens the journal, and takes connections.
fn begin<S: Site, K: Sink>(
    alloc: Global,
    names: ServeWords<'_>,
    expression: Expression,
    site: &mut S,
    out: &mut K,
) -> Result<(), EarlyEnd>
    requires least { 1 ≤ names.limit }
    requires most { names.limit ≤ most_nodes }
    requires turns { names.turns ≤ most_turns }
    requires attached { (S.state site.old).attached ≡ false }

    ensures leaves { LeavesOutput
        (ServesOver expression names.entry
        (S.state site.old) (S.state site.new) (S.crashes site.new))
        (K.state out.old) (K.state out.new) result }
    ensures puts { OnlyPuts (K.state out.old) (K.state out.new) }
{
    let mut manager = open(alloc, site, names.journal, expression, names.limit)?;
    take_connections(alloc, &mut manager, names, site, out)
}

/// Listens, puts the line of the history and takes events: the manager was just started.
fn take_connections<S: Site, K: Sink>(
    alloc: Global,
    manager: &mut Manager,
    names: ServeWords<'_>,
    site: &mut S,
    out: &mut K,
) -> Result<(), EarlyEnd>
    requires turns { names.turns ≤ most_turns }
    requires manager { IsStarted manager.old }
    requires attached { (S.state site.old).attached ≡ true }
    requires fits { FitsSite manager.old (S.state site.old) (S.crashes site.old) }

    ensures leaves { LeavesOutput
        (ServesOn (opening_at manager.old) names.entry.turns names.entry.socket.now
        manager.new.machine (stretch_of S.state S.crashes site.old site.new))
        (K.state out.old) (K.state out.new) result }
    ensures site { OnlyServed (S.state site.old) (S.state site.new) }
    ensures puts { OnlyPuts (K.state out.old) (K.state out.new) }
{
    site.listen(names.socket)?;
    out.put(&history_line(manager.count()))?;
    serve_events(alloc, manager, names.turns, site)
}
