//! One run of `trace`, up to the last line that a refusal puts.
ghost use Rattle.std.specs.Prelude.{◌≡◌, ℕ, ◌≤◌, List, [], ◌∷◌, ◌++◌, length};
ghost use Rattle.std.specs.Prelude.{IfOk, IfErr, OnOk, OnErr};
ghost use Rattle.std.specs.Io.KnownBytes.{append_known};
ghost use Rattle.ix_words.specs.Each.{Each};
ghost use Rattle.ix_cli.specs.Commands.{most_nodes};
ghost use Rattle.ix_outside.specs.FilesState.{OnlyFaults};
ghost use Rattle.ix_values.specs.Faults.{IsActionText};
ghost use Rattle.ix_outside.specs.SinkState.{OnlyPuts};
ghost use Rattle.ix_lines.specs.TextLines.{lines_of};
ghost use Rattle.ix_manage.specs.Trace.{Verdict};
ghost use Rattle.ix_manage.specs.inside.Leaves.{LeavesOutput};
ghost use Rattle.ix_manage.specs.inside.Playing.{TraceEnds};
ghost use Rattle.ix_manage.specs.inside.TracesLines.{AnswersOne, LosesHeld, PutsFront, StopsAnswer};
ghost use Rattle.ix_manage.specs.inside.TracesLines.{TracesLines};

use crate::early_end::EarlyEnd;
use crate::job::TraceWords;
use crate::load::load_actions;
use crate::refusal::Refusal;
use crate::start::start;
use arrayvec::ArrayVec;
use ix_engine::{Engine, PrepareFault};
use ix_lines::first_line;
use ix_outside::{Failed, Files, Sink};
use ix_values::Action;
use std::alloc::{AllocError, Global};

/// Answers the actions of a file by the expression.
pub(crate) fn trace<F: Files, K: Sink>(
    alloc: Global,
    names: TraceWords<'_>,
    files: &mut F,
    out: &mut K,
) -> Result<(), EarlyEnd>
    requires least { 1 ≤ names.limit }
    requires most { names.limit ≤ most_nodes }

    ensures leaves { LeavesOutput
        (TraceEnds (F.state files.old) (F.state files.new) names.entry)
        (K.state out.old) (K.state out.new) result }
    ensures files { OnlyFaults (F.state files.old) (F.state files.new) }
    ensures puts { OnlyPuts (K.state out.old) (K.state out.new) }
{
    let mut engine = start(alloc, files, names.expression, names.limit)?;
    let actions = load_actions(alloc, files, names.actions)?;
    trace_lines(alloc, &mut engine, &actions, out)
}

/// The most bytes of a line that answers an action.
const LONGEST_ANSWER: usize = 6;

/// The most bytes that are held.
const MOST_HELD: usize = 4096;

/// Answers that are put next, all of them with one call of the output.
type Held = ArrayVec<u8, MOST_HELD>;

/// Puts a line for each action, and then whether the history of the `yes` actions is complete.
fn trace_lines<K: Sink>(
    alloc: Global,
    engine: &mut Engine,
    actions: &[u8],
    out: &mut K,
) -> Result<(), EarlyEnd>
    requires empty { engine.old.history ≡ [] }
    requires lines { Each IsActionText (lines_of actions.now) }

    ensures leaves { LeavesOutput (TracesLines engine.old.form engine.old.limit actions.now)
        (K.state out.old) (K.state out.new) result }
    ensures puts { OnlyPuts (K.state out.old) (K.state out.new) }
{
    let mut held = Held::new();
    let mut rest = actions;
    while !rest.is_empty() {
        let first = first_line(rest);
        let action = Action::of_text(first.line);
        answer(alloc, engine, &action, &mut held, out)?;
        rest = first.rest;
    }
    put_held(&held, out)?;
    out.put(last_line(engine))?;
    Ok(())
}

/// Holds the answer behind the earlier ones. The action joins the history where it is `yes`. Where
/// memory runs out, what is held is put.
fn answer<K: Sink>(
    alloc: Global,
    engine: &mut Engine,
    action: &Action,
    held: &mut Held,
    out: &mut K,
) -> Result<(), EarlyEnd>
    ensures answer { OnOk result ((text : List ℕ)
        × AnswersOne engine.old action.now text engine.new.history
        × PutsFront (held.old.items ++ text) held.new.items (K.state out.old) (K.state out.new)) }
    ensures stop { IfErr result (StopsAnswer held.old.items (K.state out.old) (K.state out.new)) }
    ensures form { engine.new.form ≡ engine.old.form }
    ensures limit { engine.new.limit ≡ engine.old.limit }
    ensures puts { OnlyPuts (K.state out.old) (K.state out.new) }
{
    match answer_line(alloc, engine, action) {
        Ok(line) => {
            hold(held, line, out)?;
            Ok(())
        }
        Err(_) => {
            put_held(held, out)?;
            Err(EarlyEnd::Refused(Refusal::Memory))
        }
    }
}

fn answer_line(
    alloc: Global,
    engine: &mut Engine,
    action: &Action,
) -> Result<&'static [u8], AllocError>
    ensures answers { IfOk result
        (λ text. AnswersOne engine.old action.now text.now engine.new.history) }
    ensures short { IfOk result (λ text. length text.now ≤ LONGEST_ANSWER) }
    ensures form { engine.new.form ≡ engine.old.form }
    ensures limit { engine.new.limit ≡ engine.old.limit }
{
    match engine.take(alloc, action) {
        Ok(()) => Ok(b"yes\n"),
        Err(PrepareFault::NotPartial) => Ok(b"no\n"),
        Err(PrepareFault::Full) => Ok(b"full\n"),
        Err(PrepareFault::Over { .. }) => Ok(b"large\n"),
        Err(PrepareFault::Memory) => Err(AllocError),
    }
}

/// Holds the line behind the earlier ones, which are put before where there is no room for it.
fn hold<K: Sink>(held: &mut Held, line: &[u8], out: &mut K) -> Result<(), Failed>
    requires { length line.now ≤ LONGEST_ANSWER }
    ensures whole { OnOk result (PutsFront (held.old.items ++ line.now) held.new.items
        (K.state out.old) (K.state out.new)) }
    ensures lost { OnErr result (LosesHeld held.old.items (K.state out.old) (K.state out.new)) }
    ensures puts { OnlyPuts (K.state out.old) (K.state out.new) }
{
    if held.remaining_capacity() < line.len() {
        out.put(held)?;
        held.clear();
    }
    let kept = held.try_extend_from_slice(line);
    prove!(kept.is_ok());
    Ok(())
}

/// Puts what is held, with no call where nothing is.
fn put_held<K: Sink>(held: &Held, out: &mut K) -> Result<(), Failed>
    ensures whole { OnOk result
        ((K.state out.new).written ≡ append_known (K.state out.old).written held.now.items) }
    ensures lost { OnErr result (LosesHeld held.now.items (K.state out.old) (K.state out.new)) }
    ensures puts { OnlyPuts (K.state out.old) (K.state out.new) }
{
    if !held.is_empty() {
        out.put(held)?;
    }
    Ok(())
}

/// Whether the history is complete.
pub(crate) fn last_line(engine: &Engine) -> &'static [u8]
    ensures { Verdict engine.now.form engine.now.history result.now }
{
    if engine.is_complete() {
        b"complete\n"
    } else {
        b"partial\n"
    }
}
