//! The atoms of an expression, and the values that are fixed in them.

ghost use Rattle.std.specs.Prelude.{◌≡◌, ◌++◌, IfOk, OnOk};
ghost use Rattle.std.specs.List.{flat_map};
ghost use Rattle.ix_words.specs.Canon.{canon, put_once};
ghost use Rattle.ix_values.specs.Order.{text_cmp};
ghost use Rattle.ix_expr.specs.inside.FormOf.{form_of};
ghost use Rattle.ix_expr.specs.Atoms.{atoms_of};
ghost use Rattle.ix_next.specs.Fixed.{fixed_value};

use ix_expr::{Arg, Atom, Expr};
use ix_values::Value;
use std::alloc::{AllocError, Global};
use std::cmp::Ordering;

/// Puts the atoms of the expression behind those that are there, in pre-order.
pub(crate) fn collect(atoms: &mut Vec<Atom>, expr: &Expr) -> Result<(), AllocError>
    ensures { OnOk result (atoms.new.items ≡ atoms.old.items ++ atoms_of (form_of expr.now)) }
{
    match expr {
        Expr::Atom(atom) => {
            atoms.push(*atom)?;
            Ok(())
        }
        Expr::Opt(y)
        | Expr::Star(y)
        | Expr::ParStar(y)
        | Expr::Any(_, y)
        | Expr::Every(_, y)
        | Expr::Sync(_, y)
        | Expr::All(_, y)
        | Expr::Times(_, y) => Ok(collect(atoms, y)?),
        Expr::Seq(y, z) | Expr::Par(y, z) | Expr::Or(y, z) | Expr::And(y, z) | Expr::Couple(y, z) =>
            {
                collect(atoms, y)?;
                Ok(collect(atoms, z)?)
            }
    }
}

/// The values of the fixed arguments of these atoms, each once, ascending.
pub(crate) fn fixed_values(alloc: Global, atoms: &[Atom]) -> Result<Vec<Value>, AllocError>
    ensures { IfOk result (λ values. values.items
        ≡ canon text_cmp (flat_map (λ s. flat_map fixed_value s.arguments) atoms.now)) }
{
    let mut all = Vec::new(alloc);
    for atom in atoms {
        push_fixed(&mut all, atom.args())?;
    }
    sorted(alloc, &all)
}

/// Puts the values of the fixed arguments behind those that are there.
fn push_fixed(values: &mut Vec<Value>, args: &[Arg]) -> Result<(), AllocError>
    ensures { OnOk result (values.new.items ≡ values.old.items ++ flat_map fixed_value args.now) }
{
    for arg in args {
        if let Arg::Fixed(value) = arg {
            values.push(*value)?;
        }
    }
    Ok(())
}

/// The values, each once, ascending.
fn sorted(alloc: Global, values: &[Value]) -> Result<Vec<Value>, AllocError>
    ensures { IfOk result (λ sorted. sorted.items ≡ canon text_cmp values.now) }
{
    let mut sorted = Vec::new(alloc);
    for value in values {
        put(&mut sorted, value)?;
    }
    Ok(sorted)
}

/// Puts the value before the first that is above it, unless it is there.
fn put(values: &mut Vec<Value>, value: &Value) -> Result<(), AllocError>
    ensures { OnOk result (values.new.items ≡ put_once text_cmp value.now values.old.items) }
{
    for place in 0..values.len() {
        match value.cmp(&values[place]) {
            Ordering::Less => {
                values.insert(place, *value)?;
                return Ok(());
            }
            Ordering::Equal => return Ok(()),
            Ordering::Greater => {}
        }
    }
    values.push(*value)?;
    Ok(())
}
