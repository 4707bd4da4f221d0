//! One run of `simplify`, up to the last line that a refusal puts.
ghost use Rattle.std.specs.Prelude.{IfOk};
ghost use Rattle.ix_outside.specs.FilesState.{OnlyFaults};
ghost use Rattle.ix_outside.specs.SinkState.{OnlyPuts};
ghost use Rattle.ix_manage.specs.inside.Leaves.{LeavesOutput};
ghost use Rattle.ix_manage.specs.inside.Simplifying.{IsSimpleLine, SimplifyEnds};

use crate::early_end::EarlyEnd;
use crate::load::load_expression;
use ix_expr::Expression;
use ix_outside::{Files, Sink};
use std::alloc::{AllocError, Global};

/// Puts the canonical text of what the expression of the file becomes.
pub(crate) fn simplify<F: Files, K: Sink>(
    alloc: Global,
    name: &str,
    files: &mut F,
    out: &mut K,
) -> Result<(), EarlyEnd>
    ensures leaves { LeavesOutput
        (SimplifyEnds (F.state files.old) (F.state files.new) name.now)
        (K.state out.old) (K.state out.new) result }
    ensures files { OnlyFaults (F.state files.old) (F.state files.new) }
    ensures puts { OnlyPuts (K.state out.old) (K.state out.new) }
{
    let expression = load_expression(alloc, files, name)?;
    let line = simple_line(alloc, &expression)?;
    out.put(&line)?;
    Ok(())
}

/// The canonical text of what the expression becomes, and a newline.
fn simple_line(alloc: Global, expression: &Expression) -> Result<Vec<u8>, AllocError>
    ensures { IfOk result (λ line. IsSimpleLine expression.now line.items) }
{
    let simple = ix_simplify::simplify(alloc, expression)?;
    let mut line = ix_text::text(alloc, &simple)?;
    line.push(b'\n')?;
    Ok(line)
}
