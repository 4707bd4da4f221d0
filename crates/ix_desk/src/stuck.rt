//! Whether a history can get stuck.

ghost use Rattle.std.specs.Prelude.{◌≡◌, ◌∷◌, ◌++◌, [], IfOk, OnOk, decimal};
ghost use Rattle.std.specs.List.{flat_map};
ghost use Rattle.ix_values.specs.PlainAction.{text_of};
ghost use Rattle.ix_desk.specs.StuckLines as spec;

use crate::why::write_node;
use crate::write::{write_number, write_place};
use arrayvec::ArrayVec;
use ix_expr::Expression;
use ix_stuck::Answer;
use ix_values::Action;
use std::alloc::{AllocError, Global};

/// The lines of an answer of `ix_stuck::stuck`, `most` being the number of states that might be
/// visited: `never stuck` and the number of states; or `stuck after`, the number of actions, each
/// of these, and `never again at`, its place, `: ` and its text for each atom that matches no
/// action that can come behind them; or `more than N states`, `large` or `unconfirmed`.
///
/// `places` says where each node starts in the expression's text, the nodes in pre-order; one that
/// has no place there is told at 0. Want of memory is the one error.
pub fn stuck_lines(
    alloc: Global,
    expression: &Expression,
    places: &[usize],
    most: usize,
    answer: &Answer,
) -> Result<Vec<u8>, AllocError>
    ensures { IfOk result (λ lines. lines.items
        ≡ spec.stuck_lines most places.now expression.now answer.now) }
{
    let mut lines = Vec::new(alloc);
    match answer {
        Answer::Never { states } => write_counted(&mut lines, b"never stuck ", *states, b"\n")?,
        Answer::Stuck { word, gone } => {
            write_counted(&mut lines, b"stuck after ", word.len(), b"\n")?;
            write_word(&mut lines, word.as_slice())?;
            write_gone(&mut lines, expression, places, gone.as_slice())?;
        }
        Answer::Many => write_counted(&mut lines, b"more than ", most, b" states\n")?,
        Answer::Large => lines.extend_from_slice(b"large\n")?,
        Answer::Unconfirmed => lines.extend_from_slice(b"unconfirmed\n")?,
    }
    Ok(lines)
}

fn write_counted(
    out: &mut Vec<u8>,
    before: &[u8],
    number: usize,
    behind: &[u8],
) -> Result<(), AllocError>
    ensures { OnOk result (out.new.items
        ≡ out.old.items ++ before.now ++ decimal number ++ behind.now) }
{
    out.extend_from_slice(before)?;
    write_number(out, number)?;
    out.extend_from_slice(behind)
}

fn write_word(out: &mut Vec<u8>, word: &[Action]) -> Result<(), AllocError>
    ensures { OnOk result (out.new.items
        ≡ out.old.items ++ flat_map (λ action. text_of action ++ 10 ∷ []) word.now) }
{
    for action in word {
        write_action(out, action)?;
    }
    Ok(())
}

fn write_action(out: &mut Vec<u8>, action: &Action) -> Result<(), AllocError>
    ensures { OnOk result (out.new.items ≡ out.old.items ++ text_of action.now ++ 10 ∷ []) }
{
    let mut text = ArrayVec::new();
    action.write(&mut text);
    out.extend_from_slice(&text)?;
    out.push(b'\n')?;
    Ok(())
}

fn write_gone(
    out: &mut Vec<u8>,
    expression: &Expression,
    places: &[usize],
    gone: &[usize],
) -> Result<(), AllocError>
    ensures { OnOk result (out.new.items
        ≡ out.old.items ++ flat_map (spec.gone_line places.now expression.now) gone.now) }
{
    for node in gone {
        write_atom(out, expression, places, *node)?;
    }
    Ok(())
}

fn write_atom(
    out: &mut Vec<u8>,
    expression: &Expression,
    places: &[usize],
    node: usize,
) -> Result<(), AllocError>
    ensures { OnOk result (out.new.items
        ≡ out.old.items ++ spec.gone_line places.now expression.now node) }
{
    out.extend_from_slice(b"never again at ")?;
    write_place(out, places, node)?;
    out.extend_from_slice(b": ")?;
    write_node(out, expression, node)?;
    out.push(b'\n')?;
    Ok(())
}
