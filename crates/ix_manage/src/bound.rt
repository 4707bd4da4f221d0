//! One run of `bound`, up to the last line that a refusal puts.
ghost use Rattle.std.specs.Prelude.{◌≡◌, ◌≤◌, IfOk};
ghost use Rattle.ix_bound.specs.Refusals.{refused_nodes};
ghost use Rattle.ix_cli.specs.Commands.{most_values};
ghost use Rattle.ix_desk.specs.BoundLines as spec;
ghost use Rattle.ix_outside.specs.FilesState.{OnlyFaults};
ghost use Rattle.ix_outside.specs.SinkState.{OnlyPuts};
ghost use Rattle.ix_manage.specs.inside.Bounding.{BoundEnds};
ghost use Rattle.ix_manage.specs.inside.Leaves.{LeavesOutput};

use crate::early_end::EarlyEnd;
use crate::load::load_placed;
use ix_bound::Bound;
use ix_desk::bound_lines;
use ix_outside::{Files, Sink};
use ix_parse::Placed;
use std::alloc::{AllocError, Global};

/// Puts the bound of the expression of the file over so many different values, and each node for
/// which there is none.
pub(crate) fn bound<F: Files, K: Sink>(
    alloc: Global,
    name: &str,
    count: u64,
    files: &mut F,
    out: &mut K,
) -> Result<(), EarlyEnd>
    requires { count ≤ most_values }

    ensures leaves { LeavesOutput
        (BoundEnds (F.state files.old) (F.state files.new) name.now count)
        (K.state out.old) (K.state out.new) result }
    ensures files { OnlyFaults (F.state files.old) (F.state files.new) }
    ensures puts { OnlyPuts (K.state out.old) (K.state out.new) }
{
    let placed = load_placed(alloc, files, name)?;
    let answer = ix_bound::bound(&placed.expression, count as u32);
    let lines = answer_lines(alloc, &placed, answer)?;
    out.put(&lines)?;
    Ok(())
}

/// The lines of the answer, each node with its place.
fn answer_lines(alloc: Global, placed: &Placed, answer: Bound) -> Result<Vec<u8>, AllocError>
    ensures { IfOk result (λ lines. lines.items
        ≡ spec.bound_lines placed.now.places.items answer (refused_nodes placed.now.expression)) }
{
    bound_lines(alloc, &placed.expression, placed.places.as_slice(), answer)
}
