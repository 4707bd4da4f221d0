//! Whether an action is in the alphabet of an expression.

ghost use Rattle.std.specs.Prelude.{◌≡◌, ◌↔◌, ℕ, List, Some, IsTrue};
ghost use Rattle.ix_expr.specs.Environment.{bind};
ghost use Rattle.ix_expr.specs.FormFaults.{Fits};
ghost use Rattle.ix_expr.specs.Fitting.{FitsInside};
ghost use Rattle.ix_expr.specs.inside.FormOf.{form_of};
ghost use Rattle.ix_expr.specs.Meaning.{InAlphabet};
ghost use Rattle.ix_expr.specs.Tests.{in_alphabet};

use crate::env::Env;
use crate::expr::Expr;
use crate::matching::matches;
use crate::seen::sees;
use ix_values::{Action, Name, Value};

/// Whether the action is in the alphabet of the expression: an atom's is the actions that it
/// matches, an operator's is the union of its operands', a quantifier's is the union over all
/// values of its parameter.
#[cycle(alphabet)]
#[tactic(auto, using(crate::proofs::Testing::tells_inside))]
pub fn contains(expr: &Expr, env: &Env, action: &Action) -> bool
    requires { Fits (form_of expr.now) env.now }
    ensures test { result ≡ in_alphabet (form_of expr.now) env.now action.now }
    ensures inside { IsTrue result ↔ InAlphabet (form_of expr.now) env.now action.now }
{
    match expr {
        Expr::Atom(atom) => matches(atom, env, action),
        Expr::Opt(y) | Expr::Star(y) | Expr::ParStar(y) | Expr::Times(_, y) => {
            contains(y, env, action)
        }
        Expr::Seq(y, z) | Expr::Par(y, z) | Expr::Or(y, z) | Expr::And(y, z) | Expr::Couple(y, z) =>
            { contains(y, env, action) || contains(z, env, action) }
        Expr::Any(parameter, y)
        | Expr::Every(parameter, y)
        | Expr::Sync(parameter, y)
        | Expr::All(parameter, y) => { contains_for_some(y, parameter, env, action) }
    }
}

/// Whether the action is in the alphabet of `body` for some value of the parameter. A value that
/// isn't one of the action's does as outside does, and so does one that the body doesn't see.
#[cycle(alphabet)]
fn contains_for_some(body: &Expr, parameter: &Name, env: &Env, action: &Action) -> bool
    requires { FitsInside parameter.now (form_of body.now) env.now }
    ensures { IsTrue result
        ↔ ((v : List ℕ)
        × InAlphabet (form_of body.now) (bind parameter.now (Some v) env.now) action.now) }
{
    for value in action.values() {
        if sees(body, parameter, value, action)
            && contains_at(body, parameter, Some(*value), env, action)
        {
            return true;
        }
    }
    contains_at(body, parameter, None, env, action)
}

/// Whether the action is in the alphabet of `body` where the parameter has this value. A value of
/// None is outside.
#[cycle(alphabet)]
fn contains_at(
    body: &Expr,
    parameter: &Name,
    value: Option<Value>,
    env: &Env,
    action: &Action,
) -> bool
    requires { FitsInside parameter.now (form_of body.now) env.now }
    ensures { IsTrue result
        ↔ InAlphabet (form_of body.now) (bind parameter.now value env.now) action.now }
{
    let mut inside = *env;
    inside.bind(*parameter, value);
    contains(body, &inside, action)
}
