//! The values that a parameter gets.

ghost use Rattle.std.specs.Prelude.{◌≡◌, ◌++◌, ◌∷◌, [], if◌then◌else◌, IfOk, OnOk};
ghost use Rattle.std.specs.List.{list_any};
ghost use Rattle.ix_values.specs.Order.{text_eq};
ghost use Rattle.ix_next.specs.Candidates.{once};
ghost use Rattle.ix_next.specs.Given as spec;

use crate::given::Given;
use ix_values::{Name, Value};
use std::alloc::{AllocError, Global};

/// The values that are given for the parameter, in the order given, then the fixed ones; each once.
pub(crate) fn values_for(
    alloc: Global,
    fixed: &[Value],
    given: &[Given],
    parameter: &Name,
) -> Result<Vec<Value>, AllocError>
    ensures { IfOk result (λ values. values.items
        ≡ once text_eq (spec.given_for parameter.now given.now ++ fixed.now)) }
{
    let mut all = Vec::new(alloc);
    push_given(&mut all, given, parameter)?;
    push_all(&mut all, fixed)?;
    distinct(alloc, &all)
}

/// Puts the values that are given for the parameter behind those that are there.
fn push_given(values: &mut Vec<Value>, given: &[Given], parameter: &Name) -> Result<(), AllocError>
    ensures { OnOk result
        (values.new.items ≡ values.old.items ++ spec.given_for parameter.now given.now) }
{
    for one in given {
        if goes_to(parameter, one.parameter()) {
            values.push(*one.value())?;
        }
    }
    Ok(())
}

/// Whether what is given for `own` goes to the parameter.
fn goes_to(parameter: &Name, own: &Option<Name>) -> bool
    ensures { result ≡ spec.goes_to parameter.now own.now }
{
    match own {
        None => true,
        Some(name) => name == parameter,
    }
}

fn push_all(values: &mut Vec<Value>, more: &[Value]) -> Result<(), AllocError>
    ensures { OnOk result (values.new.items ≡ values.old.items ++ more.now) }
{
    for value in more {
        values.push(*value)?;
    }
    Ok(())
}

/// The values, each at its first place.
fn distinct(alloc: Global, values: &[Value]) -> Result<Vec<Value>, AllocError>
    ensures { IfOk result (λ distinct. distinct.items ≡ once text_eq values.now) }
{
    let mut distinct = Vec::new(alloc);
    for value in values {
        push_once(&mut distinct, value)?;
    }
    Ok(distinct)
}

/// Puts the value behind those that are there, unless it is one of them.
fn push_once(values: &mut Vec<Value>, value: &Value) -> Result<(), AllocError>
    ensures { OnOk result
        (values.new.items
        ≡ (if list_any (text_eq value.now) values.old.items then values.old.items
        else values.old.items ++ value.now ∷ [])) }
{
    if !has(values, value) {
        values.push(*value)?;
    }
    Ok(())
}

fn has(values: &[Value], value: &Value) -> bool
    ensures { result ≡ list_any (text_eq value.now) values.now }
{
    values.iter().any(|own| value == own)
}
