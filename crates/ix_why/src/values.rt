//! The first value for which a body refuses an action.

ghost use Rattle.std.specs.Prelude.{◌≡◌, Some, map};
ghost use Rattle.ix_expr.specs.Fitting.{FitsInside};
ghost use Rattle.ix_expr.specs.inside.FormOf.{form_of};
ghost use Rattle.ix_tree.specs.Order.{key};
ghost use Rattle.ix_tree.specs.Plain.{items_of};
ghost use Rattle.ix_tree.specs.PlainOf.{plain_entries};
ghost use Rattle.ix_why.specs.Blames.{first_that};
ghost use Rattle.ix_why.specs.inside.Held.{kept_tree, refuses_for, tried_held, entries_held};
ghost use Rattle.ix_why.specs.inside.Held.{BodiesProper};

use crate::ask::{Operand, refuses};
use crate::scope::Scope;
use crate::state::State;
use ix_expr::Expr;
use ix_tree::Entries;
use ix_values::{Action, Name, Value};

/// The parameter and the body of a quantifier.
#[derive(Clone, Copy)]
pub(crate) struct Body<'a> {
    pub(crate) parameter: &'a Name,
    pub(crate) expr: &'a Expr,
    /// Whether it is asked only where the action is in its alphabet.
    pub(crate) own: bool,
}

/// The first value for which the body refuses the action: of the action's from the left, then of
/// those that have a state of their own, ascending, and last outside, which is None.
pub(crate) fn first_refusing(
    body: Body,
    scope: &Scope,
    state: State,
    action: &Action,
) -> Option<Option<Value>>
    requires fits { FitsInside body.parameter.now (form_of body.expr.now) scope.now }
    requires proper { BodiesProper (form_of body.expr.now) (kept_tree state) }
    ensures { result
        ≡ first_that
        (refuses_for body.entry.own body.entry.parameter.now
        (form_of body.entry.expr.now) scope.now (kept_tree state.entry) action.now)
        (tried_held action.now (kept_tree state.entry)) }
{
    if let Some(value) = first_own(body, scope, state, action) {
        return Some(value);
    }
    if let Some(value) = first_entry(body, scope, state, action) {
        return Some(value);
    }
    if refuses_for(body, scope, state, action, None) {
        Some(None)
    } else {
        None
    }
}

/// Whether the body refuses the action for the value.
fn refuses_for(
    body: Body,
    scope: &Scope,
    state: State,
    action: &Action,
    value: Option<Value>,
) -> bool
    requires fits { FitsInside body.parameter.now (form_of body.expr.now) scope.now }
    requires proper { BodiesProper (form_of body.expr.now) (kept_tree state) }
    ensures { result
        ≡ refuses_for body.entry.own body.entry.parameter.now
        (form_of body.entry.expr.now) scope.now (kept_tree state.entry) action.now value }
{
    let state = state.at(&value);
    let inside = scope.with(body.parameter, value);
    let operand = Operand {
        expr: body.expr,
        own: body.own,
    };
    refuses(operand, &inside, state, action)
}

fn first_own(body: Body, scope: &Scope, state: State, action: &Action) -> Option<Option<Value>>
    requires fits { FitsInside body.parameter.now (form_of body.expr.now) scope.now }
    requires proper { BodiesProper (form_of body.expr.now) (kept_tree state) }
    ensures { result
        ≡ first_that
        (refuses_for body.entry.own body.entry.parameter.now
        (form_of body.entry.expr.now) scope.now (kept_tree state.entry) action.now)
        (map Some action.now.values) }
{
    for value in action.values() {
        if refuses_for(body, scope, state, action, Some(*value)) {
            return Some(Some(*value));
        }
    }
    None
}

fn first_entry(body: Body, scope: &Scope, state: State, action: &Action) -> Option<Option<Value>>
    requires fits { FitsInside body.parameter.now (form_of body.expr.now) scope.now }
    requires proper { BodiesProper (form_of body.expr.now) (kept_tree state) }
    ensures { result
        ≡ first_that
        (refuses_for body.entry.own body.entry.parameter.now
        (form_of body.entry.expr.now) scope.now (kept_tree state.entry) action.now)
        (map (λ x. Some (key x)) (entries_held (kept_tree state.entry))) }
{
    match state.entries() {
        Some(entries) => first_among(entries, body, scope, state, action),
        None => None,
    }
}

fn first_among(
    entries: &Entries,
    body: Body,
    scope: &Scope,
    state: State,
    action: &Action,
) -> Option<Option<Value>>
    requires fits { FitsInside body.parameter.now (form_of body.expr.now) scope.now }
    requires proper { BodiesProper (form_of body.expr.now) (kept_tree state) }
    ensures { result
        ≡ first_that
        (refuses_for body.entry.own body.entry.parameter.now
        (form_of body.entry.expr.now) scope.now (kept_tree state.entry) action.now)
        (map (λ x. Some (key x)) (items_of (plain_entries entries.now))) }
{
    for entry in entries.iter() {
        if refuses_for(body, scope, state, action, Some(entry.0)) {
            return Some(Some(entry.0));
        }
    }
    None
}
