//! The history that a job takes from a file.
ghost use Rattle.std.specs.Prelude.{◌≡◌, ◌≤◌, [], IfOk, IfErr, OnOk};
ghost use Rattle.ix_words.specs.Each.{Each};
ghost use Rattle.ix_values.specs.Faults.{IsActionText};
ghost use Rattle.ix_cli.specs.Commands.{most_nodes};
ghost use Rattle.ix_lines.specs.TextLines.{lines_of};
ghost use Rattle.ix_engine.specs.Histories.{AreAllowed};
ghost use Rattle.ix_outside.specs.FilesState.{OnlyFaults};
ghost use Rattle.ix_manage.specs.ActionLines.{HasActions};
ghost use Rattle.ix_manage.specs.inside.Pasts.{EndsBefore, HasPast, RefusesPast, past_refusal};

use crate::job::HistoryWords;
use crate::load::{load_actions, load_placed};
use crate::refusal::Refusal;
use crate::start::engine_of;
use ix_engine::{Engine, PrepareFault, ResumeFault};
use ix_lines::first_line;
use ix_outside::Files;
use ix_parse::Placed;
use ix_values::Action;
use std::alloc::{AllocError, Global};

/// An engine whose history is that of a file, and where the nodes of its expression start in the
/// text.
#[derive(Drop)]
pub(crate) struct Past {
    pub engine: Engine,
    pub places: Vec<usize>,
}

/// Takes the actions of a file as the history of an expression.
pub(crate) fn load_past<F: Files>(
    alloc: Global,
    files: &mut F,
    names: HistoryWords<'_>,
) -> Result<Past, Refusal>
    requires least { 1 ≤ names.limit }
    requires most { names.limit ≤ most_nodes }

    ensures past { IfOk result (HasPast (F.state files.old).contents names.entry) }
    ensures ends { IfErr result
        (EndsBefore (F.state files.old) (F.state files.new) names.entry) }
    ensures files { OnlyFaults (F.state files.old) (F.state files.new) }
{
    let Placed { expression, places } = load_placed(alloc, files, names.expression)?;
    let engine = engine_of(alloc, expression, names.limit)?;
    let lines = load_actions(alloc, files, names.actions)?;
    let engine = take(alloc, engine, &lines)?;
    Ok(Past { engine, places })
}

/// The engine with the actions of the lines as its history.
fn take(alloc: Global, engine: Engine, lines: &[u8]) -> Result<Engine, Refusal>
    requires empty { engine.history ≡ [] }
    requires lines { Each IsActionText (lines_of lines.now) }
    ensures form { IfOk result (λ s. s.form ≡ engine.form) }
    ensures actions { IfOk result (λ s. HasActions lines.now s.history) }
    ensures allowed { IfOk result (λ s. AreAllowed engine.form engine.limit s.history) }
    ensures refused { IfErr result (RefusesPast engine.form engine.limit lines.now) }
{
    let actions = read_actions(alloc, lines)?;
    match engine.resume(alloc, actions) {
        Ok(engine) => Ok(engine),
        Err(fault) => Err(past_refusal(fault)),
    }
}

/// The actions of lines that are their texts.
fn read_actions(alloc: Global, lines: &[u8]) -> Result<Vec<Action>, AllocError>
    requires { Each IsActionText (lines_of lines.now) }
    ensures { IfOk result (λ actions. HasActions lines.now actions.items) }
{
    let mut actions = Vec::new(alloc);
    let mut rest = lines;
    while !rest.is_empty() {
        let first = first_line(rest);
        actions.push(Action::of_text(first.line))?;
        rest = first.rest;
    }
    Ok(actions)
}

fn past_refusal(fault: ResumeFault) -> Refusal
    ensures { result ≡ past_refusal fault }
{
    let number = fault.number;
    match fault.why {
        PrepareFault::NotPartial => Refusal::NotAllowed { code: 62, number },
        PrepareFault::Full => Refusal::NotAllowed { code: 63, number },
        PrepareFault::Over { .. } => Refusal::NotAllowed { code: 64, number },
        PrepareFault::Memory => Refusal::Memory,
    }
}
