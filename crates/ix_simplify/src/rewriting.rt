//! An expression rewritten from its atoms up.

ghost use Rattle.std.specs.Prelude.{◌≡◌, IfOk};
ghost use Rattle.ix_expr.specs.inside.FormOf.{form_of};
ghost use Rattle.ix_simplify.specs.inside.Simplest.{simplest};

use crate::roots::{
    both_of, coupled, for_any, for_every, in_sync, one_of, optional, repeated, side_by_side,
};
use ix_expr::Expr;
use std::alloc::{AllocError, Global};

/// The expression, rewritten until no law applies in it.
#[cycle(rewriting)]
pub(crate) fn simple(alloc: Global, expr: &Expr) -> Result<Expr, AllocError>
    ensures { IfOk result (λ s. form_of s ≡ simplest (form_of expr.now)) }
{
    match expr {
        Expr::Atom(atom) => Ok(Expr::Atom(*atom)),
        Expr::Opt(y) => optional(alloc, simple(alloc, y)?),
        Expr::Star(y) => repeated(alloc, simple(alloc, y)?),
        Expr::ParStar(y) => side_by_side(alloc, simple(alloc, y)?),
        Expr::Seq(y, z) => Ok(Expr::Seq(boxed(alloc, y)?, boxed(alloc, z)?)),
        Expr::Par(y, z) => Ok(Expr::Par(boxed(alloc, y)?, boxed(alloc, z)?)),
        Expr::Or(y, z) => one_of(alloc, simple(alloc, y)?, simple(alloc, z)?),
        Expr::And(y, z) => both_of(alloc, simple(alloc, y)?, simple(alloc, z)?),
        Expr::Couple(y, z) => coupled(alloc, simple(alloc, y)?, simple(alloc, z)?),
        Expr::Any(parameter, y) => for_any(alloc, *parameter, simple(alloc, y)?),
        Expr::Every(parameter, y) => for_every(alloc, *parameter, simple(alloc, y)?),
        Expr::Sync(parameter, y) => in_sync(alloc, *parameter, simple(alloc, y)?),
        Expr::All(parameter, y) => Ok(Expr::All(*parameter, boxed(alloc, y)?)),
        Expr::Times(number, y) => Ok(Expr::Times(*number, boxed(alloc, y)?)),
    }
}

/// The rewritten operand in a box of its own.
#[cycle(rewriting)]
fn boxed(alloc: Global, operand: &Expr) -> Result<Box<Expr>, AllocError>
    ensures { IfOk result (λ s. form_of s.value ≡ simplest (form_of operand.now)) }
{
    Ok(Box::new(alloc, simple(alloc, operand)?)?)
}
