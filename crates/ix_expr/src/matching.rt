//! When an atom matches an action.

ghost use Rattle.std.specs.Prelude.{◌≡◌, ◌↔◌, IsTrue, length};
ghost use Rattle.ix_expr.specs.Environment.{HasValue, HaveValues, Matches};
ghost use Rattle.ix_expr.specs.Tests.{is_match};

use crate::arg::Arg;
use crate::atom::Atom;
use crate::env::Env;
use ix_values::{Action, Value};

/// Whether the atom matches the action: the names agree, the counts agree, and each argument's
/// value (its own, or its parameter's in `env`) is the action's value in that place. A parameter
/// that `env` hasn't counts as outside.
#[tactic(auto, using(crate::proofs::Testing::tells_match))]
pub fn matches(atom: &Atom, env: &Env, action: &Action) -> bool
    ensures test { result ≡ is_match atom.now env.now action.now }
    ensures matches { IsTrue result ↔ Matches atom.now env.now action.now }
{
    atom.name() == action.name() && have_values(atom.args(), env, action.values())
}

/// Whether there are as many arguments as values, and each argument's value is
/// the value in its place.
fn have_values(args: &[Arg], env: &Env, values: &[Value]) -> bool
    ensures { IsTrue result ↔ HaveValues env.now args.now values.now }
{
    if args.len() != values.len() {
        return false;
    }
    for (index, arg) in args.iter().enumerate() {
        if !has_value(arg, env, &values[index]) {
            return false;
        }
    }
    true
}

fn has_value(arg: &Arg, env: &Env, value: &Value) -> bool
    ensures { IsTrue result ↔ HasValue env.now arg.now value.now }
{
    match arg {
        Arg::Fixed(own) => own == value,
        Arg::Param(name) => env.gives(name, value),
    }
}
