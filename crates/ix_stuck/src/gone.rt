//! Which atoms match no action that is still to come.

ghost use Rattle.std.specs.Prelude.{◌≡◌, ◌+◌, ◌<◌, ◌^◌, ◌++◌, ◌↔◌, ℕ, true, length, IfOk, OnOk};
ghost use Rattle.std.specs.List.{list_any};
ghost use Rattle.ix_expr.specs.inside.FormOf.{form_of};
ghost use Rattle.ix_lint.specs.Nodes.{forms};
ghost use Rattle.ix_stuck.specs.Gone.{numbered_atoms};
ghost use Rattle.ix_stuck.specs.inside.Coming.{AreComing, IsUsed};
ghost use Rattle.ix_stuck.specs.inside.Marks.{mark_at};
ghost use Rattle.ix_stuck.specs.inside.Matching.{can_match, gone_of};

use crate::graph::Edge;
use crate::marks::{is_marked, mark, no_marks};
use crate::matching::can_match;
use ix_expr::{Atom, Expr};
use ix_values::Action;
use std::alloc::{AllocError, Global};

/// The numbers of the atoms that can match none of the actions, in pre-order.
pub(crate) fn gone(alloc: Global, expr: &Expr, coming: &[Action]) -> Result<Vec<usize>, AllocError>
    requires { length (forms (form_of expr.now)) < 2 ^ 64 }
    ensures { IfOk result
        (λ gone. gone.items ≡ gone_of coming.now (numbered_atoms 0 (form_of expr.now))) }
{
    let mut gone = Vec::new(alloc);
    collect(&mut gone, expr, 0, coming)?;
    Ok(gone)
}

/// Puts the numbers of the atoms that can match none of the actions behind those that are there,
/// where the nodes are numbered from `node`, and tells the number behind the last node.
fn collect(
    gone: &mut Vec<usize>,
    expr: &Expr,
    node: usize,
    coming: &[Action],
) -> Result<usize, AllocError>
    requires { node + length (forms (form_of expr.now)) < 2 ^ 64 }
    ensures next { IfOk result (λ next. next ≡ node + length (forms (form_of expr.now))) }
    ensures all { OnOk result (gone.new.items
        ≡ gone.old.items ++ gone_of coming.now (numbered_atoms node (form_of expr.now))) }
{
    match expr {
        Expr::Atom(atom) => {
            if !comes(atom, coming) {
                gone.push(node)?;
            }
            Ok(node + 1)
        }
        Expr::Opt(y)
        | Expr::Star(y)
        | Expr::ParStar(y)
        | Expr::Any(_, y)
        | Expr::Every(_, y)
        | Expr::Sync(_, y)
        | Expr::All(_, y)
        | Expr::Times(_, y) => Ok(collect(gone, y, node + 1, coming)?),
        Expr::Seq(y, z) | Expr::Par(y, z) | Expr::Or(y, z) | Expr::And(y, z) | Expr::Couple(y, z) =>
            {
                let next = collect(gone, y, node + 1, coming)?;
                Ok(collect(gone, z, next, coming)?)
            }
    }
}

/// Whether the atom can match one of the actions.
fn comes(atom: &Atom, coming: &[Action]) -> bool
    ensures { result ≡ list_any (can_match atom.now) coming.now }
{
    coming.iter().any(|action| can_match(atom, action))
}

/// The actions of the moves that have an edge.
pub(crate) fn coming(
    alloc: Global,
    moves: &[Action],
    edges: &[Edge],
) -> Result<Vec<Action>, AllocError>
    ensures { IfOk result (λ coming. AreComing moves.now edges.now coming.items) }
{
    let marks = used(alloc, moves.len(), edges)?;
    let mut coming = Vec::new(alloc);
    for (by, action) in moves.iter().enumerate() {
        if is_marked(&marks, by) {
            coming.push(*action)?;
        }
    }
    Ok(coming)
}

/// A mark for each move, true where it has an edge.
fn used(alloc: Global, count: usize, edges: &[Edge]) -> Result<Vec<bool>, AllocError>
    ensures { IfOk result (λ marks. (k : ℕ) → k < count
        → (mark_at marks.items k ≡ true) ↔ IsUsed edges.now k) }
{
    let mut marks = no_marks(alloc, count)?;
    for edge in edges {
        mark(&mut marks, edge.by);
    }
    Ok(marks)
}
