//! Which parts of an expression refuse an action.

ghost use Rattle.std.specs.Prelude.{◌≡◌, ◌++◌, IfOk, OnOk};
ghost use Rattle.std.specs.List.{flat_map};
ghost use Rattle.ix_desk.specs.WhyLines as spec;

use crate::write::write_place;
use ix_expr::Expression;
use ix_values::{Name, Value};
use ix_why::{Part, node_at};
use std::alloc::{AllocError, Global};

/// A line for each part of the expression that refuses an action, in their order, or the line
/// `permitted` where there is none.
///
/// `places` says where each node starts in the expression's text, the nodes in pre-order; one that
/// has no place there is told at 0. A line is `at`, the place of the part's node, for each
/// parameter around it ` $`, its name, `=` and its value, or `*` where it stands for each value
/// that isn't told otherwise, then `: ` and the canonical text of the part. Want of memory is the
/// one error.
pub fn why_lines(
    alloc: Global,
    expression: &Expression,
    places: &[usize],
    parts: &[Part],
) -> Result<Vec<u8>, AllocError>
    ensures { IfOk result
        (λ lines. lines.items ≡ spec.why_lines places.now expression.now parts.now) }
{
    let mut lines = Vec::new(alloc);
    if parts.is_empty() {
        lines.extend_from_slice(b"permitted\n")?;
    }
    write_parts(&mut lines, expression, places, parts)?;
    Ok(lines)
}

fn write_parts(
    out: &mut Vec<u8>,
    expression: &Expression,
    places: &[usize],
    parts: &[Part],
) -> Result<(), AllocError>
    ensures { OnOk result (out.new.items
        ≡ out.old.items ++ flat_map (spec.part_line places.now expression.now) parts.now) }
{
    for part in parts {
        write_part(out, expression, places, part)?;
    }
    Ok(())
}

fn write_part(
    out: &mut Vec<u8>,
    expression: &Expression,
    places: &[usize],
    part: &Part,
) -> Result<(), AllocError>
    ensures { OnOk result (out.new.items
        ≡ out.old.items ++ spec.part_line places.now expression.now part.now) }
{
    out.extend_from_slice(b"at ")?;
    write_place(out, places, part.node)?;
    write_bounds(out, part.bound.entries())?;
    out.extend_from_slice(b": ")?;
    write_node(out, expression, part.node)?;
    out.push(b'\n')?;
    Ok(())
}

fn write_bounds(out: &mut Vec<u8>, bounds: &[(Name, Option<Value>)]) -> Result<(), AllocError>
    ensures { OnOk result (out.new.items
        ≡ out.old.items ++ flat_map spec.bound_words bounds.now) }
{
    for (parameter, value) in bounds {
        write_bound(out, parameter, value)?;
    }
    Ok(())
}

/// What the parameter stands for.
fn write_bound(out: &mut Vec<u8>, parameter: &Name, value: &Option<Value>) -> Result<(), AllocError>
    ensures { OnOk result (out.new.items
        ≡ out.old.items ++ spec.bound_words (parameter.now, value.now)) }
{
    out.extend_from_slice(b" $")?;
    out.extend_from_slice(parameter.bytes())?;
    out.push(b'=')?;
    match value {
        Some(value) => out.extend_from_slice(value.bytes())?,
        None => out.push(b'*')?,
    }
    Ok(())
}

/// The text of the expression at the node.
pub(crate) fn write_node(
    out: &mut Vec<u8>,
    expression: &Expression,
    node: usize,
) -> Result<(), AllocError>
    ensures { OnOk result (out.new.items
        ≡ out.old.items ++ spec.node_text expression.now node) }
{
    match node_at(expression, node) {
        Some(part) => ix_text::write(out, part),
        None => Ok(()),
    }
}
