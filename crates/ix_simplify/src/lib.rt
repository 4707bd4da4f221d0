//! Expressions rewritten by laws that keep their meaning.
#![tactic(auto)]

ghost use Rattle.std.specs.Prelude.{◌≤◌, IfOk, length};
ghost use Rattle.ix_expr.specs.FormFaults.{nodes_of};
ghost use Rattle.ix_simplify.specs.Laws.{MeanTheSame};
ghost use Rattle.ix_simplify.specs.Rewriting.{Becomes, HasNoLeftSide};

mod compare;
pub mod laws;
mod rewriting;
mod roots;

use ix_expr::Expression;
use rewriting::simple;
use std::alloc::{AllocError, Global};

/// The expression, rewritten until no law applies in it: first the operands of each node, then the
/// node itself.
///
/// The laws are `??y` to `?y`; `?*y` to `*y`; `?#y` to `#y`; `**y` and `*?y` to `*y`; `*#y` to
/// `#y`; `##y`, `#*y` and `#?y` to `#y`; `y | y`, `y & y` and `y @ y` to `y`; and `any $p y`,
/// `every $p y` and `sync $p y`, where y doesn't name `$p`, to `y`. So the result has the same
/// complete words, the same partial words and the same alphabet, and at most as many nodes. Nothing
/// is promised of the sizes of its trees. Want of memory is the one error.
pub fn simplify(alloc: Global, expression: &Expression) -> Result<Expression, AllocError>
    ensures value { IfOk result (λ s. Becomes expression.now s) }
    ensures meaning { IfOk result (λ s. MeanTheSame expression.now s) }
    ensures settled { IfOk result (λ s. HasNoLeftSide s) }
    ensures nodes { IfOk result
        (λ s. length (nodes_of s) ≤ length (nodes_of expression.now)) }
{
    match Expression::new(simple(alloc, expression.expr())?) {
        Ok(simplified) => Ok(simplified),
        Err(_) => unreachable!(),
    }
}
