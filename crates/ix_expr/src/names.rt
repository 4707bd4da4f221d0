//! The names and the parameters that the atoms of an expression have.

ghost use Rattle.std.specs.Prelude.{◌≡◌, ◌↔◌, IsTrue};
ghost use Rattle.ix_expr.specs.inside.FormOf.{form_of};
ghost use Rattle.ix_expr.specs.Mentions.{Mentions, some_names};

use crate::expr::Expr;
use ix_values::Name;

/// Whether some atom of the expression has this name.
pub fn mentions(expr: &Expr, name: &Name) -> bool
    ensures { IsTrue result ↔ Mentions (form_of expr.now) name.now }
{
    match expr {
        Expr::Atom(atom) => atom.name() == name,
        Expr::Opt(y)
        | Expr::Star(y)
        | Expr::ParStar(y)
        | Expr::Any(_, y)
        | Expr::Every(_, y)
        | Expr::Sync(_, y)
        | Expr::All(_, y)
        | Expr::Times(_, y) => mentions(y, name),
        Expr::Seq(y, z) | Expr::Par(y, z) | Expr::Or(y, z) | Expr::And(y, z) | Expr::Couple(y, z) =>
            { mentions(y, name) || mentions(z, name) }
    }
}

/// Whether some atom of the expression names the parameter. One below a quantifier that binds the
/// parameter anew counts too.
pub fn some_names(expr: &Expr, parameter: &Name) -> bool
    ensures { result ≡ some_names parameter.now (form_of expr.now) }
{
    match expr {
        Expr::Atom(atom) => atom.names_parameter(parameter),
        Expr::Opt(y)
        | Expr::Star(y)
        | Expr::ParStar(y)
        | Expr::Any(_, y)
        | Expr::Every(_, y)
        | Expr::Sync(_, y)
        | Expr::All(_, y)
        | Expr::Times(_, y) => some_names(y, parameter),
        Expr::Seq(y, z) | Expr::Par(y, z) | Expr::Or(y, z) | Expr::And(y, z) | Expr::Couple(y, z) =>
            { some_names(y, parameter) || some_names(z, parameter) }
    }
}
