//! Which values of an action an expression sees.

ghost use Rattle.std.specs.Prelude.{◌↔◌, ◌≡◌, IsTrue};
ghost use Rattle.std.specs.List.{list_any, zip};
ghost use Rattle.ix_expr.specs.inside.FormOf.{form_of};
ghost use Rattle.ix_expr.specs.inside.Pairs.{is_pair};
ghost use Rattle.ix_expr.specs.Sees.{AtomSees, Sees};

use crate::arg::Arg;
use crate::atom::Atom;
use crate::expr::Expr;
use ix_values::{Action, Name, Value};

/// Whether some atom of the expression, with the action's name and as many arguments as it has
/// values, has the parameter in a place where the action's value is `value`. An atom below a
/// quantifier that binds the parameter anew counts too.
pub fn sees(expr: &Expr, parameter: &Name, value: &Value, action: &Action) -> bool
    ensures { IsTrue result ↔ Sees (form_of expr.now) parameter.now value.now action.now }
{
    match expr {
        Expr::Atom(atom) => atom_sees(atom, parameter, value, action),
        Expr::Opt(y)
        | Expr::Star(y)
        | Expr::ParStar(y)
        | Expr::Any(_, y)
        | Expr::Every(_, y)
        | Expr::Sync(_, y)
        | Expr::All(_, y)
        | Expr::Times(_, y) => sees(y, parameter, value, action),
        Expr::Seq(y, z) | Expr::Par(y, z) | Expr::Or(y, z) | Expr::And(y, z) | Expr::Couple(y, z) =>
            { sees(y, parameter, value, action) || sees(z, parameter, value, action) }
    }
}

fn atom_sees(atom: &Atom, parameter: &Name, value: &Value, action: &Action) -> bool
    ensures { IsTrue result ↔ AtomSees atom.now parameter.now value.now action.now }
{
    atom.name() == action.name()
        && atom.args().len() == action.values().len()
        && has_pair(atom.args(), action.values(), parameter, value)
}

/// Whether the parameter stands in a place where the values have `value`.
fn has_pair(args: &[Arg], values: &[Value], parameter: &Name, value: &Value) -> bool
    ensures { result ≡ list_any (is_pair parameter.now value.now) (zip args.now values.now) }
{
    args.iter()
        .zip(values)
        .any(|(arg, own)| arg.is_parameter(parameter) && own == value)
}
