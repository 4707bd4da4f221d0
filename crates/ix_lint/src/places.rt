//! The atoms of an expression, with the numbers of their nodes.

ghost use Rattle.std.specs.Prelude.{◌≡◌, ◌+◌, ◌<◌, ◌^◌, ◌++◌, IfOk, OnOk, length};
ghost use Rattle.ix_expr.specs.inside.FormOf.{form_of};
ghost use Rattle.ix_lint.specs.Atoms.{places};
ghost use Rattle.ix_lint.specs.Nodes.{forms};

use ix_expr::{Atom, Expr};
use std::alloc::AllocError;

/// An atom, with the number of its node.
#[derive(Clone, Copy)]
pub(crate) struct Place {
    pub(crate) node: usize,
    pub(crate) atom: Atom,
}

/// Puts the atoms of the expression, whose nodes are numbered from `node`, behind those that are
/// there, in pre-order, and tells the number behind the last node.
pub(crate) fn collect(found: &mut Vec<Place>, expr: &Expr, node: usize) -> Result<usize, AllocError>
    requires { node + length (forms (form_of expr.now)) < 2 ^ 64 }
    ensures next { IfOk result (λ next. next ≡ node + length (forms (form_of expr.now))) }
    ensures all { OnOk result
        (found.new.items ≡ found.old.items ++ places node (form_of expr.now)) }
{
    match expr {
        Expr::Atom(atom) => {
            found.push(Place { node, atom: *atom })?;
            Ok(node + 1)
        }
        Expr::Opt(y)
        | Expr::Star(y)
        | Expr::ParStar(y)
        | Expr::Any(_, y)
        | Expr::Every(_, y)
        | Expr::Sync(_, y)
        | Expr::All(_, y)
        | Expr::Times(_, y) => Ok(collect(found, y, node + 1)?),
        Expr::Seq(y, z) | Expr::Par(y, z) | Expr::Or(y, z) | Expr::And(y, z) | Expr::Couple(y, z) =>
            {
                let next = collect(found, y, node + 1)?;
                Ok(collect(found, z, next)?)
            }
    }
}
