//! Which atoms name a parameter, and quantifiers whose parameter none names.

ghost use Rattle.std.specs.Prelude.{◌≡◌};
ghost use Rattle.ix_expr.specs.inside.FormOf.{form_of};
ghost use Rattle.ix_lint.specs.Names as spec;

use crate::finding::FindingKind;
use ix_expr::{Expr, some_names};
use ix_values::Name;

/// Whether every atom of the expression names the parameter, and no quantifier binds it anew.
pub(crate) fn each_names(parameter: &Name, expr: &Expr) -> bool
    ensures { result ≡ spec.each_names parameter.now (form_of expr.now) }
{
    match expr {
        Expr::Atom(atom) => atom.names_parameter(parameter),
        Expr::Opt(y) | Expr::Star(y) | Expr::ParStar(y) | Expr::Times(_, y) => {
            each_names(parameter, y)
        }
        Expr::Any(bound, y) | Expr::Every(bound, y) | Expr::Sync(bound, y) | Expr::All(bound, y) =>
            bound != parameter && each_names(parameter, y),
        Expr::Seq(y, z) | Expr::Par(y, z) | Expr::Or(y, z) | Expr::And(y, z) | Expr::Couple(y, z) =>
            { each_names(parameter, y) && each_names(parameter, z) }
    }
}

/// `unused` at a quantifier.
fn unused_in(parameter: &Name, body: &Expr) -> Option<FindingKind>
    ensures { result ≡ spec.unused_in parameter.now (form_of body.now) }
{
    if some_names(body, parameter) {
        None
    } else {
        Some(FindingKind::Unused {
            parameter: *parameter,
        })
    }
}

/// `unused` at a node: a quantifier whose parameter no atom of its body names.
pub(crate) fn unused(expr: &Expr) -> Option<FindingKind>
    ensures { result ≡ spec.unused (form_of expr.now) }
{
    match expr {
        Expr::Any(parameter, y) => unused_in(parameter, y),
        Expr::Every(parameter, y) => unused_in(parameter, y),
        Expr::Sync(parameter, y) => unused_in(parameter, y),
        Expr::All(parameter, y) => unused_in(parameter, y),
        _ => None,
    }
}
