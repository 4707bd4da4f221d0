//! The number of nodes.

ghost use Rattle.std.specs.Prelude.{◌≡◌, ◌<◌, ◌^◌};
ghost use Rattle.ix_expr.specs.inside.FormOf.{form_of};
ghost use Rattle.ix_why.specs.Blames.{nodes};

use ix_expr::Expr;

/// How many nodes the expression has.
pub(crate) fn count(expr: &Expr) -> usize
    requires { nodes (form_of expr.now) < 2 ^ 64 }
    ensures { result ≡ nodes (form_of expr.now) }
{
    match expr {
        Expr::Atom(_) => 1,
        Expr::Opt(y)
        | Expr::Star(y)
        | Expr::ParStar(y)
        | Expr::Any(_, y)
        | Expr::Every(_, y)
        | Expr::Sync(_, y)
        | Expr::All(_, y)
        | Expr::Times(_, y) => 1 + count(y),
        Expr::Seq(y, z) | Expr::Par(y, z) | Expr::Or(y, z) | Expr::And(y, z) | Expr::Couple(y, z) =>
            { 1 + count(y) + count(z) }
    }
}
