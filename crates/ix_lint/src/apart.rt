//! Both sides of a `&`, where one knows an action that the other doesn't.

ghost use Rattle.std.specs.Prelude.{◌≡◌, ◌++◌};
ghost use Rattle.ix_expr.specs.inside.FormOf.{form_of};
ghost use Rattle.ix_lint.specs.Apart as spec;
ghost use Rattle.ix_lint.specs.Nodes.{first};

use crate::finding::FindingKind;
use ix_expr::{Atom, Expr, are_alike};

/// Whether an atom of the expression has the name and the number of arguments of this one.
fn has_alike(expr: &Expr, atom: &Atom) -> bool
    ensures { result ≡ spec.has_alike (form_of expr.now) atom.now }
{
    match expr {
        Expr::Atom(other) => are_alike(atom, other),
        Expr::Opt(y)
        | Expr::Star(y)
        | Expr::ParStar(y)
        | Expr::Any(_, y)
        | Expr::Every(_, y)
        | Expr::Sync(_, y)
        | Expr::All(_, y)
        | Expr::Times(_, y) => has_alike(y, atom),
        Expr::Seq(y, z) | Expr::Par(y, z) | Expr::Or(y, z) | Expr::And(y, z) | Expr::Couple(y, z) =>
            { has_alike(y, atom) || has_alike(z, atom) }
    }
}

/// The first atom of the part, in pre-order, to which none of the other expression is alike.
fn first_lone(other: &Expr, part: &Expr) -> Option<Atom>
    ensures { result ≡ first (spec.lone_atoms (form_of other.now) (form_of part.now)) }
{
    match part {
        Expr::Atom(atom) => {
            if has_alike(other, atom) {
                None
            } else {
                Some(*atom)
            }
        }
        Expr::Opt(y)
        | Expr::Star(y)
        | Expr::ParStar(y)
        | Expr::Any(_, y)
        | Expr::Every(_, y)
        | Expr::Sync(_, y)
        | Expr::All(_, y)
        | Expr::Times(_, y) => first_lone(other, y),
        Expr::Seq(y, z) | Expr::Par(y, z) | Expr::Or(y, z) | Expr::And(y, z) | Expr::Couple(y, z) =>
            match first_lone(other, y) {
                Some(atom) => Some(atom),
                None => first_lone(other, z),
            },
    }
}

fn apart_for(atom: Option<Atom>) -> Option<FindingKind>
    ensures { result ≡ spec.apart_for atom }
{
    match atom {
        Some(atom) => Some(FindingKind::Apart {
            name: *atom.name(),
            number: atom.args().len(),
        }),
        None => None,
    }
}

/// The first atom of either expression, in pre-order, to which none of the other is alike.
fn first_apart(y: &Expr, z: &Expr) -> Option<Atom>
    ensures { result
        ≡ first (spec.lone_atoms (form_of z.now) (form_of y.now)
        ++ spec.lone_atoms (form_of y.now) (form_of z.now)) }
{
    match first_lone(z, y) {
        Some(atom) => Some(atom),
        None => first_lone(y, z),
    }
}

/// `apart` at a node: the first atom of either side of a `&` to which none of the other side is
/// alike.
pub(crate) fn apart(expr: &Expr) -> Option<FindingKind>
    ensures { result ≡ spec.apart (form_of expr.now) }
{
    match expr {
        Expr::And(y, z) => apart_for(first_apart(y, z)),
        _ => None,
    }
}
