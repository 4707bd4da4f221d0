//! Names that the atoms of two expressions share.

ghost use Rattle.std.specs.Prelude.{◌≡◌};
ghost use Rattle.ix_expr.specs.inside.FormOf.{form_of};
ghost use Rattle.ix_bound.specs.Names.{has_name, share_a_name};

use ix_expr::Expr;
use ix_values::Name;

/// Whether an atom of the expression has this name.
pub(crate) fn has_name(expr: &Expr, name: &Name) -> bool
    ensures { result ≡ has_name (form_of expr.now) name.now }
{
    match expr {
        Expr::Atom(atom) => atom.name() == name,
        Expr::Opt(y)
        | Expr::Star(y)
        | Expr::ParStar(y)
        | Expr::Any(_, y)
        | Expr::Every(_, y)
        | Expr::Sync(_, y)
        | Expr::All(_, y)
        | Expr::Times(_, y) => has_name(y, name),
        Expr::Seq(y, z) | Expr::Par(y, z) | Expr::Or(y, z) | Expr::And(y, z) | Expr::Couple(y, z) =>
            { has_name(y, name) || has_name(z, name) }
    }
}

/// Whether an atom of the one expression has the name of an atom of the other.
pub(crate) fn share_a_name(one: &Expr, other: &Expr) -> bool
    ensures { result ≡ share_a_name (form_of one.now) (form_of other.now) }
{
    match one {
        Expr::Atom(atom) => has_name(other, atom.name()),
        Expr::Opt(y)
        | Expr::Star(y)
        | Expr::ParStar(y)
        | Expr::Any(_, y)
        | Expr::Every(_, y)
        | Expr::Sync(_, y)
        | Expr::All(_, y)
        | Expr::Times(_, y) => share_a_name(y, other),
        Expr::Seq(y, z) | Expr::Par(y, z) | Expr::Or(y, z) | Expr::And(y, z) | Expr::Couple(y, z) =>
            { share_a_name(y, other) || share_a_name(z, other) }
    }
}
