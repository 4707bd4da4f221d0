//! Fixed values that have the name of a parameter in scope.

ghost use Rattle.std.specs.Prelude.{◌≡◌, take, slice_get};
ghost use Rattle.std.specs.List.{list_any};
ghost use Rattle.ix_expr.specs.inside.FormOf.{form_of};
ghost use Rattle.ix_lint.specs.Nodes.{binds};
ghost use Rattle.ix_lint.specs.Values as spec;
ghost use Rattle.ix_lint.specs.inside.Above.{forms_of};

use crate::above::Above;
use crate::finding::FindingKind;
use ix_expr::{Arg, Expr};
use ix_values::Value;

/// Whether the argument is this fixed value.
fn is_fixed(value: &Value, arg: &Arg) -> bool
    ensures { result ≡ spec.is_fixed value.now arg.now }
{
    match arg {
        Arg::Fixed(own) => value == own,
        Arg::Param(_) => false,
    }
}

/// Whether some argument is this fixed value.
fn has_fixed(value: &Value, args: &[Arg]) -> bool
    ensures { result ≡ list_any (spec.is_fixed value.now) args.now }
{
    args.iter().any(|arg| is_fixed(value, arg))
}

/// Whether one of the nodes above binds a parameter with this value as its name.
fn names_a_parameter(above: &Above, value: &Value) -> bool
    ensures { result ≡ list_any (binds value.now) (forms_of above.now) }
{
    above.binds(value.bytes())
}

/// `value` for an argument behind these.
fn value_behind(above: &Above, before: &[Arg], arg: &Arg) -> Option<FindingKind>
    ensures { result ≡ spec.value_for (forms_of above.now) before.now (Some arg.now) }
{
    match arg {
        Arg::Fixed(value) => {
            if names_a_parameter(above, value) && !has_fixed(value, before) {
                Some(FindingKind::Value { value: *value })
            } else {
                None
            }
        }
        Arg::Param(_) => None,
    }
}

/// `value` for one of these arguments.
fn value_among(above: &Above, args: &[Arg], place: usize) -> Option<FindingKind>
    ensures { result
        ≡ spec.value_for (forms_of above.now) (take place args.now) (slice_get args.now place) }
{
    if place < args.len() {
        value_behind(above, &args[..place], &args[place])
    } else {
        None
    }
}

/// `value` at a node, for the argument in this place: it is fixed, its value is the name of a
/// parameter in scope, and no argument before it is the same.
pub(crate) fn value(above: &Above, expr: &Expr, place: usize) -> Option<FindingKind>
    ensures { result ≡ spec.value (forms_of above.now) (form_of expr.now) place }
{
    match expr {
        Expr::Atom(atom) => value_among(above, atom.args(), place),
        _ => None,
    }
}
