//! All nodes, in pre-order, for which no bound is given.

ghost use Rattle.std.specs.Prelude.{◌≡◌, ◌+◌, ◌<◌, ◌^◌, ◌∷◌, ◌++◌, [], IfOk, OnOk, length};
ghost use Rattle.ix_expr.specs.inside.FormOf.{form_of};
ghost use Rattle.ix_bound.specs.Refusals.{refusal_code, codes_of, refused_among, refused_nodes};

use crate::walk::refusal_code;
use ix_expr::{Expr, Expression};
use std::alloc::{AllocError, Global};

/// A node for which no bound is given.
#[derive(Clone, Copy, Debug, PartialEq, Eq)]
pub struct RefusedNode {
    /// Why, as `Bound::Refused` has it.
    pub code: u8,
    /// The number of the node, in pre-order from 0: a node, then its left operand, then its right.
    pub node: usize,
}

/// Puts the node, if it is refused, behind those that are there.
fn look(found: &mut Vec<RefusedNode>, expr: &Expr, node: usize) -> Result<(), AllocError>
    ensures { OnOk result (found.new.items
        ≡ found.old.items ++ refused_among node (refusal_code (form_of expr.now) ∷ [])) }
{
    if let Some(code) = refusal_code(expr) {
        found.push(RefusedNode { code, node })?;
    }
    Ok(())
}

/// Puts the refused nodes of the expression, whose nodes are numbered from `node`, behind those
/// that are there, and tells the number behind its last node.
#[tactic(auto, using(crate::proofs::Found::found_in_one, crate::proofs::Found::found_in_two,))]
fn collect(found: &mut Vec<RefusedNode>, expr: &Expr, node: usize) -> Result<usize, AllocError>
    requires { node + length (codes_of (form_of expr.now)) < 2 ^ 64 }
    ensures next { IfOk result (λ next. next ≡ node + length (codes_of (form_of expr.now))) }
    ensures all { OnOk result (found.new.items
        ≡ found.old.items ++ refused_among node (codes_of (form_of expr.now))) }
{
    look(found, expr, node)?;
    match expr {
        Expr::Atom(_) => Ok(node + 1),
        Expr::Opt(y)
        | Expr::Star(y)
        | Expr::ParStar(y)
        | Expr::Any(_, y)
        | Expr::Every(_, y)
        | Expr::Sync(_, y)
        | Expr::All(_, y)
        | Expr::Times(_, y) => Ok(collect(found, y, node + 1)?),
        Expr::Seq(y, z) | Expr::Par(y, z) | Expr::Or(y, z) | Expr::And(y, z) | Expr::Couple(y, z) =>
            {
                let next = collect(found, y, node + 1)?;
                Ok(collect(found, z, next)?)
            }
    }
}

/// All nodes of the expression for which no bound is given, in pre-order: where `bound` answers
/// `Refused`, the first of them is the one that it tells, and else there is none. Want of memory is
/// the one error.
#[tactic(auto, using(crate::proofs::Counts::few_codes))]
pub fn refused_nodes(alloc: Global, expression: &Expression) -> Result<Vec<RefusedNode>, AllocError>
    ensures { IfOk result (λ found. found.items ≡ refused_nodes expression.now) }
{
    let mut found = Vec::new(alloc);
    collect(&mut found, expression.expr(), 0)?;
    Ok(found)
}
