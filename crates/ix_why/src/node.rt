//! The subexpression at a node.

ghost use Rattle.std.specs.Prelude.{◌≡◌, ◌<◌, ◌^◌, ◌↔◌, IsSome, length, option_map, slice_get};
ghost use Rattle.ix_expr.specs.FormFaults.{nodes_of};
ghost use Rattle.ix_expr.specs.inside.FormOf.{form_of};
ghost use Rattle.ix_lint.specs.Nodes.{forms};
ghost use Rattle.ix_why.specs.Blames.{nodes};

use crate::count::count;
use ix_expr::{Expr, Expression};

/// The subexpression at the node with this number, in pre-order from 0, or None where there is no
/// such node.
pub fn node_at(expression: &Expression, node: usize) -> Option<&Expr>
    ensures at { option_map (λ part. form_of part.now) result
        ≡ slice_get (forms expression.now) node }
    ensures there { IsSome result ↔ (node < length (nodes_of expression.now)) }
{
    below(expression.expr(), node)
}

/// The same of an expression itself.
fn below(expr: &Expr, node: usize) -> Option<&Expr>
    requires { nodes (form_of expr.now) < 2 ^ 64 }
    ensures { option_map (λ part. form_of part.now) result
        ≡ slice_get (forms (form_of expr.now)) node }
{
    if node == 0 {
        return Some(expr);
    }
    match expr {
        Expr::Atom(_) => None,
        Expr::Opt(y)
        | Expr::Star(y)
        | Expr::ParStar(y)
        | Expr::Any(_, y)
        | Expr::Every(_, y)
        | Expr::Sync(_, y)
        | Expr::All(_, y)
        | Expr::Times(_, y) => below(y, node - 1),
        Expr::Seq(y, z) | Expr::Par(y, z) | Expr::Or(y, z) | Expr::And(y, z) | Expr::Couple(y, z) =>
            {
                let before = 1 + count(y);
                if node < before {
                    below(y, node - 1)
                } else {
                    below(z, node - before)
                }
            }
    }
}
