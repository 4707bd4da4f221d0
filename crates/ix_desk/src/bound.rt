//! How large the state can get, and which nodes keep that from being told.

ghost use Rattle.std.specs.Prelude.{◌≡◌, ◌∷◌, ◌++◌, [], IfOk, OnOk};
ghost use Rattle.std.specs.List.{flat_map};
ghost use Rattle.ix_bound.specs.Refusals.{refused_nodes};
ghost use Rattle.ix_desk.specs.BoundLines as spec;

use crate::write::{write_number, write_place};
use ix_bound::{Bound, RefusedNode, refused_nodes};
use ix_expr::Expression;
use std::alloc::{AllocError, Global};

/// The line of `answer`, which `ix_bound::bound` gave for the expression, and one for each node for
/// which there is no bound, in pre-order.
///
/// The first line is `bound` and the number, `above 1000000`, or `unbounded`, the code, `node` and
/// the number of the first refused node. The line of a refused node, the first too, is its code,
/// `node`, its number, `at` and the place where it starts: `places` says that of each node of the
/// expression's text, the nodes in pre-order; one that has no place there is told at 0. Want of
/// memory is the one error.
pub fn bound_lines(
    alloc: Global,
    expression: &Expression,
    places: &[usize],
    answer: Bound,
) -> Result<Vec<u8>, AllocError>
    ensures { IfOk result (λ lines. lines.items
        ≡ spec.bound_lines places.now answer (refused_nodes expression.now)) }
{
    let refused = refused_nodes(alloc, expression)?;
    let mut lines = Vec::new(alloc);
    write_answer(&mut lines, answer)?;
    write_refused(&mut lines, places, &refused)?;
    Ok(lines)
}

fn write_answer(out: &mut Vec<u8>, answer: Bound) -> Result<(), AllocError>
    ensures { OnOk result (out.new.items ≡ out.old.items ++ spec.bound_line answer) }
{
    match answer {
        Bound::Within(number) => {
            out.extend_from_slice(b"bound ")?;
            write_number(out, number as usize)?;
        }
        Bound::Above => out.extend_from_slice(b"above 1000000")?,
        Bound::Refused { code, node } => {
            out.extend_from_slice(b"unbounded ")?;
            write_unbounded(out, code, node)?;
        }
    }
    out.push(b'\n')?;
    Ok(())
}

/// A code and a node.
fn write_unbounded(out: &mut Vec<u8>, code: u8, node: usize) -> Result<(), AllocError>
    ensures { OnOk result (out.new.items ≡ out.old.items ++ spec.unbounded_words code node) }
{
    write_number(out, code as usize)?;
    out.extend_from_slice(b" node ")?;
    write_number(out, node)
}

fn write_refused(
    out: &mut Vec<u8>,
    places: &[usize],
    refused: &[RefusedNode],
) -> Result<(), AllocError>
    ensures { OnOk result (out.new.items
        ≡ out.old.items ++ flat_map (spec.unbounded_line places.now) refused.now) }
{
    for node in refused {
        write_node(out, places, node)?;
    }
    Ok(())
}

fn write_node(out: &mut Vec<u8>, places: &[usize], node: &RefusedNode) -> Result<(), AllocError>
    ensures { OnOk result
        (out.new.items ≡ out.old.items ++ spec.unbounded_line places.now node.now) }
{
    write_unbounded(out, node.code, node.node)?;
    out.extend_from_slice(b" at ")?;
    write_place(out, places, node.node)?;
    out.push(b'\n')?;
    Ok(())
}
