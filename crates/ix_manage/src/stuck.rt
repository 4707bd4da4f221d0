//! One run of `stuck`, up to the last line that a refusal puts.
ghost use Rattle.std.specs.Prelude.{◌≡◌, ◌≤◌, IfOk, IfErr};
ghost use Rattle.ix_cli.specs.Commands.{most_nodes};
ghost use Rattle.ix_outside.specs.FilesState.{OnlyFaults};
ghost use Rattle.ix_outside.specs.SinkState.{OnlyPuts};
ghost use Rattle.ix_next.specs.Menu as spec;
ghost use Rattle.ix_manage.specs.inside.Desks.{IsSearch, RefusesMoves, StuckEnds};
ghost use Rattle.ix_manage.specs.inside.Leaves.{LeavesOutput};
ghost use Rattle.ix_manage.specs.inside.Linting.{placed_meaning};

use crate::early_end::EarlyEnd;
use crate::job::StuckWords;
use crate::load::load_placed;
use crate::refusal::Refusal;
use crate::values::load_values;
use ix_desk::stuck_lines;
use ix_expr::Expression;
use ix_next::{Given, MenuFault};
use ix_outside::{Files, Sink};
use ix_parse::Placed;
use ix_stuck::Limits;
use ix_values::Action;
use std::alloc::{AllocError, Global};

/// Puts whether a history over the given values of a file can get stuck.
pub(crate) fn stuck<F: Files, K: Sink>(
    alloc: Global,
    names: StuckWords<'_>,
    files: &mut F,
    out: &mut K,
) -> Result<(), EarlyEnd>
    requires least { 1 ≤ names.limit }
    requires most { names.limit ≤ most_nodes }

    ensures leaves { LeavesOutput
        (StuckEnds (F.state files.old) (F.state files.new) names.entry)
        (K.state out.old) (K.state out.new) result }
    ensures files { OnlyFaults (F.state files.old) (F.state files.new) }
    ensures puts { OnlyPuts (K.state out.old) (K.state out.new) }
{
    let placed = load_placed(alloc, files, names.expression)?;
    let given = load_values(alloc, files, names.values)?;
    let moves = moves(alloc, &placed.expression, given.as_slice())?;
    let limits = Limits {
        nodes: names.limit,
        states: names.states,
    };
    let lines = search(alloc, &placed, moves.as_slice(), limits)?;
    out.put(&lines)?;
    Ok(())
}

/// The actions that are tried.
fn moves(alloc: Global, expression: &Expression, given: &[Given]) -> Result<Vec<Action>, Refusal>
    ensures moves { IfOk result (λ moves. moves.items ≡ spec.moves expression.now given.now) }
    ensures refused { IfErr result (RefusesMoves expression.now given.now) }
{
    match ix_next::moves(alloc, expression, given) {
        Ok(moves) => Ok(moves),
        Err(MenuFault::Many) => Err(Refusal::Candidates),
        Err(MenuFault::Memory) => Err(Refusal::Memory),
    }
}

/// The lines of what the moves can lead to.
fn search(
    alloc: Global,
    placed: &Placed,
    moves: &[Action],
    limits: Limits,
) -> Result<Vec<u8>, AllocError>
    requires least { 1 ≤ limits.nodes }
    requires most { limits.nodes ≤ most_nodes }
    ensures { IfOk result (λ lines.
        IsSearch (placed_meaning placed.now) moves.now limits.nodes limits.states lines.items) }
{
    let expression = &placed.expression;
    let answer = ix_stuck::stuck(alloc, expression, moves, limits)?;
    stuck_lines(
        alloc,
        expression,
        placed.places.as_slice(),
        limits.states,
        &answer,
    )
}
