//! Whether an action may come first.

ghost use Rattle.std.specs.Prelude.{◌≡◌, ◌↔◌, ◌∷◌, [], Some, true, false, IsTrue};
ghost use Rattle.std.specs.List.{list_all, list_any};
ghost use Rattle.ix_expr.specs.Environment.{bind};
ghost use Rattle.ix_expr.specs.Fitting.{FitsInside};
ghost use Rattle.ix_expr.specs.Form.{seq, par, or, and, couple};
ghost use Rattle.ix_expr.specs.FormFaults.{Fits};
ghost use Rattle.ix_expr.specs.inside.FormOf.{form_of};
ghost use Rattle.ix_expr.specs.Meaning.{IsPartial};
ghost use Rattle.ix_can.specs.inside.CanAsk.{first_or_stays, UnseenFirst};
ghost use Rattle.ix_can.specs.May.{may_first};
ghost use Rattle.ix_expr.specs.Tests.{values_and_outside};

use ix_expr::{Env, Expr, accepts_empty, contains, matches, sees};
use ix_values::{Action, Name, Value};

/// Whether the word of this one action is partial.
pub fn can_first(expr: &Expr, env: &Env, action: &Action) -> bool
    requires fits { Fits (form_of expr.now) env.now }
    ensures by_form { result ≡ may_first (form_of expr.now) env.now action.now }
    ensures tells { IsTrue result ↔ IsPartial (form_of expr.now) env.now (action.now ∷ []) }
{
    begins(expr, env, action)
}

#[cycle(begins)]
pub(crate) fn begins(expr: &Expr, env: &Env, action: &Action) -> bool
    requires { Fits (form_of expr.now) env.now }
    ensures { result ≡ may_first (form_of expr.now) env.now action.now }
{
    match expr {
        Expr::Atom(atom) => matches(atom, env, action),
        Expr::Opt(y) | Expr::Star(y) | Expr::ParStar(y) => begins(y, env, action),
        Expr::Seq(y, z) => begins_seq(y, z, env, action),
        Expr::Par(y, z) | Expr::Or(y, z) => begins_either(y, z, env, action),
        Expr::And(y, z) => begins_both(y, z, env, action),
        Expr::Couple(y, z) => begins_couple(y, z, env, action),
        Expr::Any(p, y) => begins_for_some(p, y, env, action),
        Expr::Every(p, y) => begins_for_each(false, p, y, env, action),
        Expr::Sync(p, y) => contains(expr, env, action) && begins_for_each(true, p, y, env, action),
        Expr::All(p, y) => some_value_begins(p, y, env, action),
        Expr::Times(number, y) => *number > 0 && begins(y, env, action),
    }
}

/// Where the first part may be empty, the second may begin.
#[cycle(begins)]
fn begins_seq(y: &Expr, z: &Expr, env: &Env, action: &Action) -> bool
    requires first { Fits (form_of y.now) env.now }
    requires second { Fits (form_of z.now) env.now }
    ensures { result ≡ may_first (seq (form_of y.now) (form_of z.now)) env.now action.now }
{
    begins(y, env, action) || (accepts_empty(y) && begins(z, env, action))
}

#[cycle(begins)]
fn begins_either(y: &Expr, z: &Expr, env: &Env, action: &Action) -> bool
    requires first { Fits (form_of y.now) env.now }
    requires second { Fits (form_of z.now) env.now }
    ensures { result ≡ may_first (or (form_of y.now) (form_of z.now)) env.now action.now }
{
    begins(y, env, action) || begins(z, env, action)
}

#[cycle(begins)]
fn begins_both(y: &Expr, z: &Expr, env: &Env, action: &Action) -> bool
    requires first { Fits (form_of y.now) env.now }
    requires second { Fits (form_of z.now) env.now }
    ensures { result ≡ may_first (and (form_of y.now) (form_of z.now)) env.now action.now }
{
    begins(y, env, action) && begins(z, env, action)
}

/// Each side that has the action in its alphabet must begin with it, and one of them must have it.
/// Each is asked once.
#[cycle(begins)]
fn begins_couple(y: &Expr, z: &Expr, env: &Env, action: &Action) -> bool
    requires first { Fits (form_of y.now) env.now }
    requires second { Fits (form_of z.now) env.now }
    ensures { result ≡ may_first (couple (form_of y.now) (form_of z.now)) env.now action.now }
{
    let left_moves = contains(y, env, action);
    if left_moves && !begins(y, env, action) {
        return false;
    }
    let right_moves = contains(z, env, action);
    if right_moves && !begins(z, env, action) {
        return false;
    }
    left_moves || right_moves
}

/// With `stays`, an action outside the alphabet is taken too: the expression stands still.
#[cycle(begins)]
fn begins_or_stays(stays: bool, y: &Expr, env: &Env, action: &Action) -> bool
    requires { Fits (form_of y.now) env.now }
    ensures { result ≡ first_or_stays stays (form_of y.now) env.now action.now }
{
    if stays {
        !contains(y, env, action) || begins(y, env, action)
    } else {
        begins(y, env, action)
    }
}

/// A value of None is outside.
#[cycle(begins)]
fn begins_at(
    stays: bool,
    p: &Name,
    y: &Expr,
    value: Option<Value>,
    env: &Env,
    action: &Action,
) -> bool
    requires { FitsInside p.now (form_of y.now) env.now }
    ensures { result ≡ first_or_stays stays (form_of y.now) (bind p.now value env.now) action.now }
{
    let mut inside = *env;
    inside.bind(*p, value);
    begins_or_stays(stays, y, &inside, action)
}

/// Outside stands for every value that isn't one of the action's.
#[cycle(begins)]
fn begins_for_some(p: &Name, y: &Expr, env: &Env, action: &Action) -> bool
    requires { FitsInside p.now (form_of y.now) env.now }
    ensures { result ≡ list_any (λ v. may_first (form_of y.now) (bind p.now v env.now) action.now)
        (values_and_outside action.now) }
{
    begins_at(false, p, y, None, env, action) || some_value_begins(p, y, env, action)
}

#[cycle(begins)]
fn begins_for_each(stays: bool, p: &Name, y: &Expr, env: &Env, action: &Action) -> bool
    requires { FitsInside p.now (form_of y.now) env.now }
    ensures { result ≡ list_all (λ v. first_or_stays stays (form_of y.now) (bind p.now v env.now)
        action.now) (values_and_outside action.now) }
{
    begins_at(stays, p, y, None, env, action) && each_value_begins(stays, p, y, env, action)
}

/// A value that the body doesn't see doesn't begin.
#[cycle(begins)]
fn some_value_begins(p: &Name, y: &Expr, env: &Env, action: &Action) -> bool
    requires fits { FitsInside p.now (form_of y.now) env.now }
    requires unseen { UnseenFirst false false (form_of y.now) p.now env.now action.now }
    ensures { result ≡ list_any (λ v. may_first (form_of y.now) (bind p.now (Some v) env.now)
        action.now) action.now.values }
{
    for value in action.values() {
        if sees(y, p, value, action) && begins_at(false, p, y, Some(*value), env, action) {
            return true;
        }
    }
    false
}

/// A value that the body doesn't see begins, or stays.
#[cycle(begins)]
fn each_value_begins(stays: bool, p: &Name, y: &Expr, env: &Env, action: &Action) -> bool
    requires fits { FitsInside p.now (form_of y.now) env.now }
    requires unseen { UnseenFirst true stays (form_of y.now) p.now env.now action.now }
    ensures { result ≡ list_all (λ v. first_or_stays stays (form_of y.now) (bind p.now (Some v)
        env.now) action.now) action.now.values }
{
    for value in action.values() {
        if sees(y, p, value, action) && !begins_at(stays, p, y, Some(*value), env, action) {
            return false;
        }
    }
    true
}
