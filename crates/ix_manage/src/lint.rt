//! One run of `lint`, up to the last line that a refusal puts.
ghost use Rattle.std.specs.Prelude.{◌≡◌, IfOk};
ghost use Rattle.ix_desk.specs.LintLines as spec;
ghost use Rattle.ix_lint.specs.Findings.{findings};
ghost use Rattle.ix_outside.specs.FilesState.{OnlyFaults};
ghost use Rattle.ix_outside.specs.SinkState.{OnlyPuts};
ghost use Rattle.ix_manage.specs.inside.Leaves.{LeavesOutput};
ghost use Rattle.ix_manage.specs.inside.Linting.{LintEnds};

use crate::early_end::EarlyEnd;
use crate::load::load_placed;
use ix_desk::lint_lines;
use ix_outside::{Files, Sink};
use ix_parse::Placed;
use std::alloc::{AllocError, Global};

/// Puts a line for each thing that looks wrong in the expression of the file.
pub(crate) fn lint<F: Files, K: Sink>(
    alloc: Global,
    name: &str,
    files: &mut F,
    out: &mut K,
) -> Result<(), EarlyEnd>
    ensures leaves { LeavesOutput
        (LintEnds (F.state files.old) (F.state files.new) name.now)
        (K.state out.old) (K.state out.new) result }
    ensures files { OnlyFaults (F.state files.old) (F.state files.new) }
    ensures puts { OnlyPuts (K.state out.old) (K.state out.new) }
{
    let placed = load_placed(alloc, files, name)?;
    let lines = finding_lines(alloc, &placed)?;
    out.put(&lines)?;
    Ok(())
}

/// The lines of what looks wrong in the expression, each with its place.
fn finding_lines(alloc: Global, placed: &Placed) -> Result<Vec<u8>, AllocError>
    ensures { IfOk result (λ lines. lines.items
        ≡ spec.lint_lines placed.now.places.items (findings placed.now.expression)) }
{
    lint_lines(alloc, &placed.expression, placed.places.as_slice())
}
