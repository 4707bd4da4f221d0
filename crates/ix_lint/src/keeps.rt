//! Quantifiers whose values stay in the state once they are touched.

ghost use Rattle.std.specs.Prelude.{◌≡◌};
ghost use Rattle.ix_expr.specs.inside.FormOf.{form_of};
ghost use Rattle.ix_lint.specs.Keeps as spec;
ghost use Rattle.ix_lint.specs.inside.Above.{forms_of};

use crate::above::Above;
use crate::finding::FindingKind;
use crate::names::each_names;
use ix_expr::Expr;

/// Whether a `*` or a `#` stands in the expression.
fn has_iteration(expr: &Expr) -> bool
    ensures { result ≡ spec.has_iteration (form_of expr.now) }
{
    match expr {
        Expr::Atom(_) => false,
        Expr::Star(_) | Expr::ParStar(_) => true,
        Expr::Opt(y)
        | Expr::Any(_, y)
        | Expr::Every(_, y)
        | Expr::Sync(_, y)
        | Expr::All(_, y)
        | Expr::Times(_, y) => has_iteration(y),
        Expr::Seq(y, z) | Expr::Par(y, z) | Expr::Or(y, z) | Expr::And(y, z) | Expr::Couple(y, z) =>
            { has_iteration(y) || has_iteration(z) }
    }
}

/// Whether the expression is an `all`, or a `sync` all of whose atoms name its parameter, over a
/// body without `*` and `#`.
fn is_kept(expr: &Expr) -> bool
    ensures { result ≡ spec.is_kept (form_of expr.now) }
{
    match expr {
        Expr::Sync(parameter, y) => each_names(parameter, y) && !has_iteration(y),
        Expr::All(_, y) => !has_iteration(y),
        _ => false,
    }
}

/// `keeps` at a node: it is such a quantifier, and stands inside no `*` and no `#`.
pub(crate) fn keeps(above: &Above, expr: &Expr) -> Option<FindingKind>
    ensures { result ≡ spec.keeps (forms_of above.now) (form_of expr.now) }
{
    if is_kept(expr) && !above.has_iteration() {
        Some(FindingKind::Keeps)
    } else {
        None
    }
}
