//! The one value that owns an action.

ghost use Rattle.std.specs.Prelude.{◌≡◌, ◌||◌, not, Some};
ghost use Rattle.std.specs.List.{list_all};
ghost use Rattle.ix_expr.specs.Environment.{bind};
ghost use Rattle.ix_expr.specs.Fitting.{FitsInside};
ghost use Rattle.ix_expr.specs.inside.FormOf.{form_of};
ghost use Rattle.ix_values.specs.Order.{text_eq};
ghost use Rattle.ix_expr.specs.Tests.{in_alphabet};
ghost use Rattle.ix_why.specs.Blames as spec;
ghost use Rattle.ix_why.specs.Blames.{first_that};

use crate::scope::Scope;
use crate::values::Body;
use ix_expr::contains;
use ix_values::{Action, Value};

/// The only one of the action's values for which it is in the alphabet of the body, or None where
/// there are none or several.
pub(crate) fn owner(body: Body, scope: &Scope, action: &Action) -> Option<Value>
    requires { FitsInside body.parameter.now (form_of body.expr.now) scope.now }
    ensures { result
        ≡ spec.owner body.entry.parameter.now (form_of body.entry.expr.now) scope.now
        action.now }
{
    match first_owner(body, scope, action) {
        Some(value) if is_only_owner(&value, body, scope, action) => Some(value),
        _ => None,
    }
}

fn owns(value: &Value, body: Body, scope: &Scope, action: &Action) -> bool
    requires { FitsInside body.parameter.now (form_of body.expr.now) scope.now }
    ensures { result
        ≡ in_alphabet (form_of body.entry.expr.now)
        (bind body.entry.parameter.now (Some value.now) scope.now) action.now }
{
    let inside = scope.with(body.parameter, Some(*value));
    contains(body.expr, inside.env(), action)
}

fn first_owner(body: Body, scope: &Scope, action: &Action) -> Option<Value>
    requires { FitsInside body.parameter.now (form_of body.expr.now) scope.now }
    ensures { result
        ≡ first_that
        (λ v. in_alphabet (form_of body.entry.expr.now)
        (bind body.entry.parameter.now (Some v) scope.now) action.now) action.now.values }
{
    for value in action.values() {
        if owns(value, body, scope, action) {
            return Some(*value);
        }
    }
    None
}

/// Whether each of the action's values that owns it is this one.
fn is_only_owner(value: &Value, body: Body, scope: &Scope, action: &Action) -> bool
    requires { FitsInside body.parameter.now (form_of body.expr.now) scope.now }
    ensures { result
        ≡ list_all
        (λ v. not (in_alphabet (form_of body.entry.expr.now)
        (bind body.entry.parameter.now (Some v) scope.now) action.now) || text_eq value.now v)
        action.now.values }
{
    for other in action.values() {
        if owns(other, body, scope, action) && value != other {
            return false;
        }
    }
    true
}
