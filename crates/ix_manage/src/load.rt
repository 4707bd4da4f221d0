//! Loads the files that the words name.
ghost use Rattle.std.specs.Prelude.{◌≡◌, ◌≤◌, List, IfOk, IfErr, length};
ghost use Rattle.ix_words.specs.Each.{Each};
ghost use Rattle.ix_values.specs.Faults.{IsActionText};
ghost use Rattle.ix_parse.specs.Faults.{StandsFor, IsPlaced};
ghost use Rattle.ix_outside.specs.FilesState.{OnlyFaults};
ghost use Rattle.ix_outside.specs.Files.{HasFile};
ghost use Rattle.ix_lines.specs.TextLines.{lines_of};
ghost use Rattle.ix_outside.specs.Contents.{GivenEvent};
ghost use Rattle.ix_script.specs.Events.{HasEvents};
ghost use Rattle.ix_manage.specs.inside.Refusal.{IsBadScript, RefusesActions, RefusesExpression};
ghost use Rattle.ix_manage.specs.inside.Refusal.{RefusesLines, RefusesScript, RefusesText};
ghost use Rattle.ix_manage.specs.inside.Renewing.{RefusesLoad};
ghost use Rattle.ix_manage.specs.Renewals.{ReadsJournal};
ghost use Rattle.ix_manage.specs.Trace.{ReadsForm, ReadsPlaced};
ghost use Rattle.ix_manage.specs.inside.Linting.{placed_meaning};

use crate::actions::{ActionLines, MOST_BYTES as MOST_ACTIONS_BYTES};
use crate::refusal::{Input, Refusal};
use ix_expr::Expression;
use ix_lines::first_fault;
use ix_outside::{Files, LoadFault};
use ix_parse::{Placed, TextFault};
use ix_script::Script;
use std::alloc::Global;

/// The most bytes of an expression's text.
const MOST_BYTES: usize = 16384;

/// The most bytes of a script.
const MOST_SCRIPT_BYTES: usize = 67_108_864;

/// The most bytes of a file of lines.
const MOST_LINES_BYTES: usize = 67_108_864;

/// The most bytes of a journal: as many as its records can have up to the first closed gate.
const MOST_JOURNAL_BYTES: usize = 237_065_593;

#[tactic(auto, using(crate::proofs::Ending::reads_placed))]
pub(crate) fn load_expression<F: Files>(
    alloc: Global,
    files: &mut F,
    name: &str,
) -> Result<Expression, Refusal>
    ensures ok { IfOk result (λ x. ReadsForm (F.state files.old).contents name.now x) }
    ensures err { IfErr result
        (RefusesExpression (F.state files.old) (F.state files.new) name.now) }

    ensures files { OnlyFaults (F.state files.old) (F.state files.new) }
{
    match load_placed(alloc, files, name) {
        Ok(Placed { expression, .. }) => Ok(expression),
        Err(refusal) => Err(refusal),
    }
}

/// The expression of the file, and where its nodes start in the text.
pub(crate) fn load_placed<F: Files>(
    alloc: Global,
    files: &mut F,
    name: &str,
) -> Result<Placed, Refusal>
    ensures ok { IfOk result
        (λ x. ReadsPlaced (F.state files.old).contents name.now (placed_meaning x)) }
    ensures err { IfErr result
        (RefusesExpression (F.state files.old) (F.state files.new) name.now) }

    ensures files { OnlyFaults (F.state files.old) (F.state files.new) }
{
    match files.load(alloc, name, MOST_BYTES) {
        Ok(text) => read_placed(alloc, &text),
        Err(LoadFault::Failed) => Err(Refusal::Lost(Input::Expression)),
        Err(LoadFault::TooLong) => Err(Refusal::Bad {
            file: Input::Expression,
            code: 1,
            at: MOST_BYTES,
        }),
        Err(LoadFault::Memory) => Err(Refusal::Memory),
    }
}

/// The expression of a text.
#[tactic(auto, using(crate::proofs::Ending::stands_placed))]
pub(crate) fn read_expression(alloc: Global, text: &[u8]) -> Result<Expression, Refusal>
    ensures ok { IfOk result (StandsFor text.now) }
    ensures err { IfErr result (RefusesText text.now) }
{
    let Placed { expression, .. } = read_placed(alloc, text)?;
    Ok(expression)
}

/// The expression of a text, and where its nodes start.
fn read_placed(alloc: Global, text: &[u8]) -> Result<Placed, Refusal>
    ensures ok { IfOk result (λ x. IsPlaced text.now (placed_meaning x)) }
    ensures err { IfErr result (RefusesText text.now) }
{
    match ix_parse::read_placed(alloc, text) {
        Ok(placed) => Ok(placed),
        Err(TextFault::Bad { code, at }) => Err(Refusal::Bad {
            file: Input::Expression,
            code,
            at,
        }),
        Err(TextFault::Memory) => Err(Refusal::Memory),
    }
}

/// Every line of the bytes is an action's text.
pub(crate) fn load_actions<F: Files>(
    alloc: Global,
    files: &mut F,
    name: &str,
) -> Result<Vec<u8>, Refusal>
    ensures file { IfOk result
        (λ bytes. HasFile (F.state files.old).contents name.now bytes.items) }
    ensures short { IfOk result (λ bytes. length bytes.items ≤ MOST_ACTIONS_BYTES) }
    ensures lines { IfOk result (λ bytes. Each IsActionText (lines_of bytes.items)) }
    ensures err { IfErr result
        (RefusesActions (F.state files.old) (F.state files.new) name.now) }

    ensures files { OnlyFaults (F.state files.old) (F.state files.new) }
{
    match files.load(alloc, name, MOST_ACTIONS_BYTES) {
        Ok(bytes) => match first_fault::<ActionLines>(&bytes) {
            None => Ok(bytes),
            Some(fault) => Err(Refusal::Bad {
                file: Input::Actions,
                code: fault.code,
                at: fault.at,
            }),
        },
        Err(LoadFault::Failed) => Err(Refusal::Lost(Input::Actions)),
        Err(LoadFault::TooLong) => Err(Refusal::Bad {
            file: Input::Actions,
            code: 6,
            at: MOST_ACTIONS_BYTES,
        }),
        Err(LoadFault::Memory) => Err(Refusal::Memory),
    }
}

/// The bytes of a script, whose lines `read_script` checks.
pub(crate) fn load_script<F: Files>(
    alloc: Global,
    files: &mut F,
    name: &str,
) -> Result<Vec<u8>, Refusal>
    ensures file { IfOk result
        (λ bytes. HasFile (F.state files.old).contents name.now bytes.items) }
    ensures short { IfOk result (λ bytes. length bytes.items ≤ MOST_SCRIPT_BYTES) }
    ensures err { IfErr result
        (RefusesScript (F.state files.old) (F.state files.new) name.now) }

    ensures files { OnlyFaults (F.state files.old) (F.state files.new) }
{
    match files.load(alloc, name, MOST_SCRIPT_BYTES) {
        Ok(bytes) => Ok(bytes),
        Err(LoadFault::Failed) => Err(Refusal::Lost(Input::Script)),
        Err(LoadFault::TooLong) => Err(Refusal::Bad {
            file: Input::Script,
            code: 34,
            at: MOST_SCRIPT_BYTES,
        }),
        Err(LoadFault::Memory) => Err(Refusal::Memory),
    }
}

/// The bytes of a file of lines.
pub(crate) fn load_lines<F: Files>(
    alloc: Global,
    files: &mut F,
    name: &str,
) -> Result<Vec<u8>, Refusal>
    ensures file { IfOk result
        (λ bytes. HasFile (F.state files.old).contents name.now bytes.items) }
    ensures short { IfOk result (λ bytes. length bytes.items ≤ MOST_LINES_BYTES) }
    ensures err { IfErr result
        (RefusesLines (F.state files.old) (F.state files.new) name.now) }

    ensures files { OnlyFaults (F.state files.old) (F.state files.new) }
{
    match files.load(alloc, name, MOST_LINES_BYTES) {
        Ok(bytes) => Ok(bytes),
        Err(LoadFault::Failed) => Err(Refusal::Lost(Input::Lines)),
        Err(LoadFault::TooLong) => Err(Refusal::Bad {
            file: Input::Lines,
            code: 7,
            at: MOST_LINES_BYTES,
        }),
        Err(LoadFault::Memory) => Err(Refusal::Memory),
    }
}

/// The bytes of a journal. A file that is too long isn't loaded.
pub(crate) fn load_journal<F: Files>(
    alloc: Global,
    files: &mut F,
    name: &str,
) -> Result<Vec<u8>, Refusal>
    ensures file { IfOk result
        (λ bytes. ReadsJournal (F.state files.old).contents name.now bytes.items) }
    ensures err { IfErr result
        (RefusesLoad (F.state files.old) (F.state files.new) name.now) }

    ensures files { OnlyFaults (F.state files.old) (F.state files.new) }
{
    match files.load(alloc, name, MOST_JOURNAL_BYTES) {
        Ok(bytes) => Ok(bytes),
        Err(LoadFault::Failed) => Err(Refusal::Lost(Input::Journal)),
        Err(LoadFault::TooLong) => Err(Refusal::Lost(Input::Journal)),
        Err(LoadFault::Memory) => Err(Refusal::Memory),
    }
}

/// The script of bytes that were loaded, each of whose lines is in the grammar.
pub(crate) fn read_script(bytes: &[u8]) -> Result<Script<'_>, Refusal>
    ensures same { IfOk result (λ script. script ≡ bytes.now) }
    ensures events { IfOk result
        (λ script. (events : List GivenEvent) × HasEvents bytes.now events) }
    ensures err { IfErr result (IsBadScript bytes.now) }
{
    match Script::read(bytes) {
        Ok(script) => Ok(script),
        Err(fault) => Err(Refusal::Bad {
            file: Input::Script,
            code: fault.code,
            at: fault.at,
        }),
    }
}
