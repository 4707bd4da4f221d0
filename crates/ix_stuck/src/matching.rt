//! Whether an atom matches an action under some environment.

ghost use Rattle.std.specs.Prelude.{◌≡◌, length};
ghost use Rattle.ix_stuck.specs.inside.Matching.{agrees, all_agree, can_begin, can_have, can_match};

use ix_expr::{Arg, Atom};
use ix_values::{Action, Name, Value};

/// Whether the atom matches the action under some environment.
pub(crate) fn can_match(atom: &Atom, action: &Action) -> bool
    ensures { result ≡ can_match atom.now action.now }
{
    atom.name() == action.name() && can_have(atom.args(), action.values())
}

/// Whether there are as many arguments as values, and some environment gives them these values.
fn can_have(args: &[Arg], values: &[Value]) -> bool
    ensures { result ≡ can_have args.now values.now }
{
    if args.len() != values.len() {
        return false;
    }
    for index in 0..args.len() {
        if !can_begin(
            &args[index],
            &values[index],
            &args[index + 1..],
            &values[index + 1..],
        ) {
            return false;
        }
    }
    true
}

/// Whether the value can be that of the argument, with these behind them.
fn can_begin(arg: &Arg, value: &Value, args: &[Arg], values: &[Value]) -> bool
    requires { length args.now ≡ length values.now }
    ensures { result ≡ can_begin arg.now value.now args.now values.now }
{
    match arg {
        Arg::Fixed(own) => own == value,
        Arg::Param(name) => all_agree(name, value, args, values),
    }
}

/// Whether each argument that is the parameter has the value in its place.
fn all_agree(name: &Name, value: &Value, args: &[Arg], values: &[Value]) -> bool
    requires { length args.now ≡ length values.now }
    ensures { result ≡ all_agree name.now value.now args.now values.now }
{
    for (index, arg) in args.iter().enumerate() {
        if !agrees(name, value, arg, &values[index]) {
            return false;
        }
    }
    true
}

/// Whether the argument isn't the parameter, or the values are the same.
fn agrees(name: &Name, value: &Value, arg: &Arg, other: &Value) -> bool
    ensures { result ≡ agrees name.now value.now arg.now other.now }
{
    match arg {
        Arg::Fixed(_) => true,
        Arg::Param(own) => name != own || value == other,
    }
}
