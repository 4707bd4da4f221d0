//! Headed expressions: the actions that can come first have names that none behind them has.

ghost use Rattle.std.specs.Prelude.{◌≡◌};
ghost use Rattle.std.specs.List.{list_any};
ghost use Rattle.ix_expr.specs.inside.FormOf.{form_of};
ghost use Rattle.ix_expr.specs.Tests.{accepts_empty};
ghost use Rattle.ix_bound.specs.Heads.{comes_again, has_heads, is_head, is_headed, is_in_rest};
ghost use Rattle.ix_expr.specs.Atoms.{atoms_of};

use crate::names::has_name;
use ix_expr::{Expr, accepts_empty};
use ix_values::Name;

/// Whether heads and a rest are defined.
fn has_heads(expr: &Expr) -> bool
    ensures { result ≡ has_heads (form_of expr.now) }
{
    match expr {
        Expr::Atom(_) => true,
        Expr::Opt(y) | Expr::Any(_, y) | Expr::Every(_, y) => has_heads(y),
        Expr::Seq(y, _) => has_heads(y) && !accepts_empty(y),
        Expr::Or(y, z) | Expr::And(y, z) => has_heads(y) && has_heads(z),
        _ => false,
    }
}

/// Whether the first action can have this name.
fn is_head(expr: &Expr, name: &Name) -> bool
    ensures { result ≡ is_head (form_of expr.now) name.now }
{
    match expr {
        Expr::Atom(atom) => atom.name() == name,
        Expr::Opt(y) | Expr::Any(_, y) | Expr::Every(_, y) | Expr::Seq(y, _) => is_head(y, name),
        Expr::Or(y, z) | Expr::And(y, z) => is_head(y, name) || is_head(z, name),
        _ => false,
    }
}

/// Whether an action behind the first one can have this name.
fn is_in_rest(expr: &Expr, name: &Name) -> bool
    ensures { result ≡ is_in_rest (form_of expr.now) name.now }
{
    match expr {
        Expr::Opt(y) | Expr::Any(_, y) | Expr::Every(_, y) => is_in_rest(y, name),
        Expr::Seq(y, z) => is_in_rest(y, name) || has_name(z, name),
        Expr::Or(y, z) | Expr::And(y, z) => is_in_rest(y, name) || is_in_rest(z, name),
        _ => false,
    }
}

/// Whether an atom of the part has a name that comes first in the whole and again behind it.
fn some_come_again(whole: &Expr, part: &Expr) -> bool
    ensures { result ≡ list_any (λ a. comes_again (form_of whole.now) a.name)
        (atoms_of (form_of part.now)) }
{
    match part {
        Expr::Atom(atom) => is_head(whole, atom.name()) && is_in_rest(whole, atom.name()),
        Expr::Opt(y)
        | Expr::Star(y)
        | Expr::ParStar(y)
        | Expr::Any(_, y)
        | Expr::Every(_, y)
        | Expr::Sync(_, y)
        | Expr::All(_, y)
        | Expr::Times(_, y) => some_come_again(whole, y),
        Expr::Seq(y, z) | Expr::Par(y, z) | Expr::Or(y, z) | Expr::And(y, z) | Expr::Couple(y, z) =>
            { some_come_again(whole, y) || some_come_again(whole, z) }
    }
}

/// Whether heads and a rest are defined and share no name.
pub(crate) fn is_headed(expr: &Expr) -> bool
    ensures { result ≡ is_headed (form_of expr.now) }
{
    has_heads(expr) && !some_come_again(expr, expr)
}
