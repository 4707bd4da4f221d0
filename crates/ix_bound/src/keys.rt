//! Keyed expressions: for each name and number of arguments one place holds the parameter.

ghost use Rattle.std.specs.Prelude.{◌≡◌, ◌<◌, length};
ghost use Rattle.std.specs.List.{list_all};
ghost use Rattle.ix_expr.specs.inside.FormOf.{form_of};
ghost use Rattle.ix_bound.specs.Keys.{has_key, is_at, is_keyed, keeps_key};
ghost use Rattle.ix_expr.specs.Atoms.{atoms_of};

use ix_expr::{Arg, Atom, Expr, are_alike};
use ix_values::Name;

/// Whether the argument in this place is the parameter.
fn is_at(parameter: &Name, place: usize, args: &[Arg]) -> bool
    ensures { result ≡ is_at parameter.now place args.now }
{
    place < args.len() && args[place].is_parameter(parameter)
}

/// Whether each atom of the expression that is alike holds the parameter in this place.
fn all_keep(parameter: &Name, atom: &Atom, place: usize, expr: &Expr) -> bool
    ensures { result ≡ list_all (keeps_key parameter.now atom.now place)
        (atoms_of (form_of expr.now)) }
{
    match expr {
        Expr::Atom(other) => !are_alike(atom, other) || is_at(parameter, place, other.args()),
        Expr::Opt(y)
        | Expr::Star(y)
        | Expr::ParStar(y)
        | Expr::Any(_, y)
        | Expr::Every(_, y)
        | Expr::Sync(_, y)
        | Expr::All(_, y)
        | Expr::Times(_, y) => all_keep(parameter, atom, place, y),
        Expr::Seq(y, z) | Expr::Par(y, z) | Expr::Or(y, z) | Expr::And(y, z) | Expr::Couple(y, z) =>
            { all_keep(parameter, atom, place, y) && all_keep(parameter, atom, place, z) }
    }
}

/// Whether there is one such place of the four.
fn has_key(parameter: &Name, whole: &Expr, atom: &Atom) -> bool
    ensures { result ≡ has_key parameter.now (atoms_of (form_of whole.now)) atom.now }
{
    all_keep(parameter, atom, 0, whole)
        || all_keep(parameter, atom, 1, whole)
        || all_keep(parameter, atom, 2, whole)
        || all_keep(parameter, atom, 3, whole)
}

/// Whether each atom of the part has one in the whole.
fn all_have_keys(parameter: &Name, whole: &Expr, part: &Expr) -> bool
    ensures { result ≡ list_all (has_key parameter.now (atoms_of (form_of whole.now)))
        (atoms_of (form_of part.now)) }
{
    match part {
        Expr::Atom(atom) => has_key(parameter, whole, atom),
        Expr::Opt(y)
        | Expr::Star(y)
        | Expr::ParStar(y)
        | Expr::Any(_, y)
        | Expr::Every(_, y)
        | Expr::Sync(_, y)
        | Expr::All(_, y)
        | Expr::Times(_, y) => all_have_keys(parameter, whole, y),
        Expr::Seq(y, z) | Expr::Par(y, z) | Expr::Or(y, z) | Expr::And(y, z) | Expr::Couple(y, z) =>
            { all_have_keys(parameter, whole, y) && all_have_keys(parameter, whole, z) }
    }
}

/// Whether the body of an `all` with this parameter is keyed.
pub(crate) fn is_keyed(parameter: &Name, expr: &Expr) -> bool
    ensures { result ≡ is_keyed parameter.now (form_of expr.now) }
{
    all_have_keys(parameter, expr, expr)
}
