//! One run of `next`, up to the last line that a refusal puts.
ghost use Rattle.std.specs.Prelude.{◌≡◌, ◌≤◌, IfOk, IfErr, map, string_bytes};
ghost use Rattle.ix_cli.specs.Commands.{most_nodes};
ghost use Rattle.ix_next.specs.Menu.{IsMenu};
ghost use Rattle.ix_next.specs.Lists.{IsGiven};
ghost use Rattle.ix_words.specs.Each.{Each};
ghost use Rattle.ix_outside.specs.FilesState.{OnlyFaults};
ghost use Rattle.ix_outside.specs.SinkState.{OnlyPuts};
ghost use Rattle.ix_manage.specs.inside.Desks.{IsOffer, NextEnds, RefusesOffer};
ghost use Rattle.ix_manage.specs.inside.Leaves.{LeavesOutput};

use crate::early_end::EarlyEnd;
use crate::job::HistoryWords;
use crate::past::{Past, load_past};
use crate::refusal::Refusal;
use crate::trace::last_line;
use ix_desk::menu_lines;
use ix_next::{Candidate, Given, MenuFault, given_values};
use ix_outside::{Files, Sink};
use std::alloc::Global;

/// Puts a line for each action that may come behind the history, and then whether this is complete.
pub(crate) fn next<F: Files, K: Sink>(
    alloc: Global,
    names: HistoryWords<'_>,
    values: &[String],
    files: &mut F,
    out: &mut K,
) -> Result<(), EarlyEnd>
    requires least { 1 ≤ names.limit }
    requires most { names.limit ≤ most_nodes }
    requires fit { Each IsGiven (map string_bytes values.now) }

    ensures leaves { LeavesOutput
        (NextEnds (F.state files.old) (F.state files.new) names.entry (map string_bytes values.now))
        (K.state out.old) (K.state out.new) result }
    ensures files { OnlyFaults (F.state files.old) (F.state files.new) }
    ensures puts { OnlyPuts (K.state out.old) (K.state out.new) }
{
    let past = load_past(alloc, files, names)?;
    let given = given_values(alloc, values)?;
    let lines = offer(alloc, &past, given.as_slice())?;
    out.put(&lines)?;
    Ok(())
}

/// The lines of the menu, and the last line.
fn offer(alloc: Global, past: &Past, given: &[Given]) -> Result<Vec<u8>, Refusal>
    ensures offer { IfOk result (λ lines.
        IsOffer past.now.engine.form past.now.engine.history given.now lines.items) }
    ensures refused { IfErr result (RefusesOffer past.now.engine.form given.now) }
{
    let menu = menu(alloc, past, given)?;
    let mut lines = menu_lines(alloc, menu.as_slice())?;
    lines.extend_from_slice(last_line(&past.engine))?;
    Ok(lines)
}

/// The menu behind the history.
fn menu(alloc: Global, past: &Past, given: &[Given]) -> Result<Vec<Candidate>, Refusal>
    ensures menu { IfOk result (λ menu.
        IsMenu past.now.engine.form past.now.engine.history given.now menu.items) }
    ensures refused { IfErr result (RefusesOffer past.now.engine.form given.now) }
{
    let engine = &past.engine;
    match ix_next::next(
        alloc,
        engine.expression(),
        engine.tree(),
        engine.history(),
        given,
    ) {
        Ok(menu) => Ok(menu),
        Err(MenuFault::Many) => Err(Refusal::Candidates),
        Err(MenuFault::Memory) => Err(Refusal::Memory),
    }
}
