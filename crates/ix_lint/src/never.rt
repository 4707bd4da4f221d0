//! Nodes of which no word is complete, by their form.

ghost use Rattle.std.specs.Prelude.{◌≡◌, ◌&&◌, not};
ghost use Rattle.ix_expr.specs.Tests as tests;
ghost use Rattle.ix_expr.specs.inside.FormOf.{form_of};
ghost use Rattle.ix_lint.specs.Names as names;
ghost use Rattle.ix_lint.specs.Never as spec;
ghost use Rattle.ix_lint.specs.inside.Above.{forms_of};

use crate::above::Above;
use crate::finding::FindingKind;
use crate::names::each_names;
use ix_expr::{Expr, accepts_empty};
use ix_values::Name;

/// Whether each atom of the body names the parameter and the empty word isn't complete in it, so
/// that a value of which a word has no action never has a complete part.
fn wants_each_value(parameter: &Name, body: &Expr) -> bool
    ensures { result
        ≡ names.each_names parameter.now (form_of body.now)
        && not (tests.accepts_empty (form_of body.now)) }
{
    each_names(parameter, body) && !accepts_empty(body)
}

/// Whether no word is complete in the expression, by its form.
pub(crate) fn is_never(expr: &Expr) -> bool
    ensures { result ≡ spec.is_never (form_of expr.now) }
{
    match expr {
        Expr::Atom(_) | Expr::Opt(_) | Expr::Star(_) | Expr::ParStar(_) => false,
        Expr::Seq(y, z) | Expr::Par(y, z) | Expr::And(y, z) | Expr::Couple(y, z) => {
            is_never(y) || is_never(z)
        }
        Expr::Or(y, z) => is_never(y) && is_never(z),
        Expr::Any(_, y) => is_never(y),
        Expr::Every(parameter, y) | Expr::Sync(parameter, y) => {
            wants_each_value(parameter, y) || is_never(y)
        }
        Expr::All(_, y) => !accepts_empty(y),
        Expr::Times(number, y) => *number != 0 && is_never(y),
    }
}

/// `never` at a node: no word is complete in it, and no node above it is such a one.
pub(crate) fn never(above: &Above, expr: &Expr) -> Option<FindingKind>
    ensures { result ≡ spec.never (forms_of above.now) (form_of expr.now) }
{
    if is_never(expr) && !above.has_never() {
        Some(FindingKind::Never)
    } else {
        None
    }
}
