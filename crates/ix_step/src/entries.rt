//! The entries of values beside a common tree.

ghost use Rattle.std.specs.Prelude.{◌≡◌, ℕ, ◌≤◌, ◌++◌, ◌∷◌, [], List, IfOk, OnOk};
ghost use Rattle.std.specs.Map.{keys_of};
ghost use Rattle.ix_values.specs.Order.{text_cmp};
ghost use Rattle.ix_entries.specs.inside.Entries.{AreProperEntries};
ghost use Rattle.ix_expr.specs.inside.FormOf.{form_of};
ghost use Rattle.ix_tree.specs.Plain.{Plain};
ghost use Rattle.ix_tree.specs.Size.{size_of};
ghost use Rattle.ix_step.specs.inside.EnterTrees.{HoldTrees, EnterTrees};
ghost use Rattle.ix_step.specs.inside.Limits.{most_limit};
ghost use Rattle.ix_step.specs.inside.ValueTrees.{AddsSeen, TakesIn};

use crate::bodies::Body;
use crate::fault::Unbuilt;
use ix_entries::put;
use ix_expr::sees;
use ix_tree::{Entries, Knot};
use ix_values::{Action, Value};
use std::alloc::{AllocError, Global};

/// Puts the value's tree among the entries. `total` is what the Sizes of the entries are together,
/// and the answer what they are together afterwards.
pub(crate) fn put_tree(
    entries: &mut Vec<(Value, Knot)>,
    total: usize,
    common: &Knot,
    value: Value,
    tree: Knot,
    limit: usize,
) -> Result<usize, Unbuilt>
    requires proper { AreProperEntries text_cmp ⟦<Knot as PartialEq>⟧.eq common.now
        entries.old.items }
    requires small { size_of tree ≤ most_limit }
    requires within { total ≤ limit }
    requires bounded { limit ≤ most_limit }
    ensures proper { AreProperEntries text_cmp ⟦<Knot as PartialEq>⟧.eq common.now
        entries.new.items }
    ensures entered { (trees : List ℕ → Plain) (values : List (List ℕ))
        → HoldTrees common.now trees values entries.old.items total
        → tree ≡ trees value
        → EnterTrees limit common.now trees (values ++ value ∷ []) entries.new.items result }
{
    let size = tree.size();
    let count = entries.len();
    put(entries, common, value, tree)?;
    // The Size counts only where there is an entry more: a tree that equals the common one leaves
    // none, and a value that comes again keeps its entry.
    if entries.len() <= count {
        return Ok(total);
    }
    if total + 1 + size > limit {
        return Err(Unbuilt::Over);
    }
    Ok(total + 1 + size)
}

/// The values that have entries, and those of the action that the body sees. Every other value
/// moves as outside does.
pub(crate) fn touched_values(
    alloc: Global,
    body: Body,
    entries: &Entries,
    action: &Action,
) -> Result<Vec<Value>, AllocError>
    ensures { IfOk result (λ values. TakesIn (form_of body.entry.expr.now) body.entry.parameter.now
        action.now entries.now values.items) }
{
    let mut values = entry_values(alloc, entries)?;
    push_seen(&mut values, body, action)?;
    Ok(values)
}

fn entry_values(alloc: Global, entries: &Entries) -> Result<Vec<Value>, AllocError>
    ensures { IfOk result (λ values. values.items ≡ keys_of entries.now) }
{
    let mut values = Vec::new(alloc);
    for entry in entries.iter() {
        values.push(entry.0)?;
    }
    Ok(values)
}

fn push_seen(values: &mut Vec<Value>, body: Body, action: &Action) -> Result<(), AllocError>
    ensures { OnOk result (AddsSeen (form_of body.entry.expr.now) body.entry.parameter.now
        action.now
        action.now.values values.old.items values.new.items) }
{
    for value in action.values() {
        push_if_seen(values, body, value, action)?;
    }
    Ok(())
}

fn push_if_seen(
    values: &mut Vec<Value>,
    body: Body,
    value: &Value,
    action: &Action,
) -> Result<(), AllocError>
    ensures { OnOk result (AddsSeen (form_of body.entry.expr.now) body.entry.parameter.now
        action.now
        (value.now ∷ []) values.old.items values.new.items) }
{
    if !sees(body.expr, body.parameter, value, action) {
        return Ok(());
    }
    if values.as_slice().contains(value) {
        return Ok(());
    }
    values.push(*value)?;
    Ok(())
}
