//! One node over operands in which no law applies, rewritten.

ghost use Rattle.std.specs.Prelude.{◌≡◌, IfOk};
ghost use Rattle.ix_expr.specs.inside.FormOf.{form_of};
ghost use Rattle.ix_simplify.specs.inside.Simplest as spec;

use crate::compare::same;
use ix_expr::{Expr, some_names};
use ix_values::Name;
use std::alloc::{AllocError, Global};

/// `?` over the operand.
pub(crate) fn optional(alloc: Global, operand: Expr) -> Result<Expr, AllocError>
    ensures { IfOk result (λ s. form_of s ≡ spec.optional (form_of operand)) }
{
    match operand {
        Expr::Opt(y) => Ok(Expr::Opt(y)),
        Expr::Star(y) => Ok(Expr::Star(y)),
        Expr::ParStar(y) => Ok(Expr::ParStar(y)),
        other => Ok(Expr::Opt(Box::new(alloc, other)?)),
    }
}

/// `*` over the operand.
pub(crate) fn repeated(alloc: Global, operand: Expr) -> Result<Expr, AllocError>
    ensures { IfOk result (λ s. form_of s ≡ spec.repeated (form_of operand)) }
{
    match operand {
        Expr::Opt(y) | Expr::Star(y) => Ok(Expr::Star(y)),
        Expr::ParStar(y) => Ok(Expr::ParStar(y)),
        other => Ok(Expr::Star(Box::new(alloc, other)?)),
    }
}

/// `#` over the operand.
pub(crate) fn side_by_side(alloc: Global, operand: Expr) -> Result<Expr, AllocError>
    ensures { IfOk result (λ s. form_of s ≡ spec.side_by_side (form_of operand)) }
{
    match operand {
        Expr::Opt(y) | Expr::Star(y) | Expr::ParStar(y) => Ok(Expr::ParStar(y)),
        other => Ok(Expr::ParStar(Box::new(alloc, other)?)),
    }
}

/// `|` between the operands.
pub(crate) fn one_of(alloc: Global, left: Expr, right: Expr) -> Result<Expr, AllocError>
    ensures { IfOk result (λ s. form_of s ≡ spec.one_of (form_of left) (form_of right)) }
{
    if same(&left, &right) {
        Ok(left)
    } else {
        Ok(Expr::Or(Box::new(alloc, left)?, Box::new(alloc, right)?))
    }
}

/// `&` between the operands.
pub(crate) fn both_of(alloc: Global, left: Expr, right: Expr) -> Result<Expr, AllocError>
    ensures { IfOk result (λ s. form_of s ≡ spec.both_of (form_of left) (form_of right)) }
{
    if same(&left, &right) {
        Ok(left)
    } else {
        Ok(Expr::And(Box::new(alloc, left)?, Box::new(alloc, right)?))
    }
}

/// `@` between the operands.
pub(crate) fn coupled(alloc: Global, left: Expr, right: Expr) -> Result<Expr, AllocError>
    ensures { IfOk result (λ s. form_of s ≡ spec.coupled (form_of left) (form_of right)) }
{
    if same(&left, &right) {
        Ok(left)
    } else {
        Ok(Expr::Couple(Box::new(alloc, left)?, Box::new(alloc, right)?))
    }
}

/// `any` over the body.
pub(crate) fn for_any(alloc: Global, parameter: Name, body: Expr) -> Result<Expr, AllocError>
    ensures { IfOk result (λ s. form_of s ≡ spec.for_any parameter (form_of body)) }
{
    if some_names(&body, &parameter) {
        Ok(Expr::Any(parameter, Box::new(alloc, body)?))
    } else {
        Ok(body)
    }
}

/// `every` over the body.
pub(crate) fn for_every(alloc: Global, parameter: Name, body: Expr) -> Result<Expr, AllocError>
    ensures { IfOk result (λ s. form_of s ≡ spec.for_every parameter (form_of body)) }
{
    if some_names(&body, &parameter) {
        Ok(Expr::Every(parameter, Box::new(alloc, body)?))
    } else {
        Ok(body)
    }
}

/// `sync` over the body.
pub(crate) fn in_sync(alloc: Global, parameter: Name, body: Expr) -> Result<Expr, AllocError>
    ensures { IfOk result (λ s. form_of s ≡ spec.in_sync parameter (form_of body)) }
{
    if some_names(&body, &parameter) {
        Ok(Expr::Sync(parameter, Box::new(alloc, body)?))
    } else {
        Ok(body)
    }
}
