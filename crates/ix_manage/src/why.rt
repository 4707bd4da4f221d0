//! One run of `why`, up to the last line that a refusal puts.
ghost use Rattle.std.specs.Prelude.{◌≡◌, ◌≤◌, [], IfOk};
ghost use Rattle.ix_values.specs.Faults.{IsActionText};
ghost use Rattle.ix_can.specs.TreeOf.{tree_of};
ghost use Rattle.ix_cli.specs.Commands.{most_nodes};
ghost use Rattle.ix_desk.specs.WhyLines as spec;
ghost use Rattle.ix_outside.specs.FilesState.{OnlyFaults};
ghost use Rattle.ix_outside.specs.SinkState.{OnlyPuts};
ghost use Rattle.ix_why.specs.Blames.{refusals};
ghost use Rattle.ix_manage.specs.inside.Desks.{WhyEnds};
ghost use Rattle.ix_manage.specs.inside.Leaves.{LeavesOutput};

use crate::early_end::EarlyEnd;
use crate::job::HistoryWords;
use crate::past::{Past, load_past};
use ix_desk::why_lines;
use ix_outside::{Files, Sink};
use ix_values::Action;
use std::alloc::{AllocError, Global};

/// Puts a line for each part of the expression that refuses the action behind the history.
pub(crate) fn why<F: Files, K: Sink>(
    alloc: Global,
    names: HistoryWords<'_>,
    action: &str,
    files: &mut F,
    out: &mut K,
) -> Result<(), EarlyEnd>
    requires least { 1 ≤ names.limit }
    requires most { names.limit ≤ most_nodes }
    requires fit { IsActionText action.now }

    ensures leaves { LeavesOutput
        (WhyEnds (F.state files.old) (F.state files.new) names.entry action.now)
        (K.state out.old) (K.state out.new) result }
    ensures files { OnlyFaults (F.state files.old) (F.state files.new) }
    ensures puts { OnlyPuts (K.state out.old) (K.state out.new) }
{
    let past = load_past(alloc, files, names)?;
    let lines = reasons(alloc, &past, &Action::of_text(action.as_bytes()))?;
    out.put(&lines)?;
    Ok(())
}

/// The lines of the parts that refuse the action.
#[tactic(auto, using(crate::proofs::Desking::proper_tree))]
fn reasons(alloc: Global, past: &Past, action: &Action) -> Result<Vec<u8>, AllocError>
    ensures { IfOk result (λ lines. lines.items
        ≡ spec.why_lines past.now.places.items past.now.engine.form
        (refusals past.now.engine.form (tree_of past.now.engine.form [] past.now.engine.history)
        action.now)) }
{
    let engine = &past.engine;
    let parts = ix_why::why(alloc, engine.expression(), engine.tree(), action)?;
    why_lines(
        alloc,
        engine.expression(),
        past.places.as_slice(),
        parts.as_slice(),
    )
}
