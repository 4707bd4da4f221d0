//! Whether an operand refuses an action.

ghost use Rattle.std.specs.Prelude.{◌≡◌};
ghost use Rattle.ix_expr.specs.inside.FormOf.{form_of};
ghost use Rattle.ix_can.specs.inside.CanAsk.{CanAsk};
ghost use Rattle.ix_can.specs.May.{may};
ghost use Rattle.ix_why.specs.inside.Held.{kept_tree, tree_held, refuses_if};

use crate::scope::Scope;
use crate::state::State;
use ix_can::{can_first, goes_on};
use ix_expr::{Expr, contains};
use ix_values::Action;

/// An operand, and whether it is asked only where the action is in its alphabet.
#[derive(Clone, Copy)]
pub(crate) struct Operand<'a> {
    pub(crate) expr: &'a Expr,
    pub(crate) own: bool,
}

/// Whether the word of the state, extended by the action, is partial.
pub(crate) fn takes(expr: &Expr, scope: &Scope, state: State, action: &Action) -> bool
    requires { CanAsk (form_of expr.now) scope.now
        (tree_held (form_of expr.now) (kept_tree state)) }
    ensures { result
        ≡ may (form_of expr.now) scope.now (tree_held (form_of expr.now) (kept_tree state.entry))
        action.now }
{
    match state {
        State::Initial => can_first(expr, scope.env(), action),
        State::Done => false,
        State::At(knot) => goes_on(expr, scope.env(), knot, action),
    }
}

/// Whether the action may not come in the operand, and is in its alphabet where that is asked too.
pub(crate) fn refuses(operand: Operand, scope: &Scope, state: State, action: &Action) -> bool
    requires { CanAsk (form_of operand.expr.now) scope.now
        (tree_held (form_of operand.expr.now) (kept_tree state)) }
    ensures { result
        ≡ refuses_if operand.entry.own (form_of operand.entry.expr.now) scope.now
        (tree_held (form_of operand.entry.expr.now) (kept_tree state.entry)) action.now }
{
    if operand.own && !contains(operand.expr, scope.env(), action) {
        return false;
    }
    !takes(operand.expr, scope, state, action)
}
