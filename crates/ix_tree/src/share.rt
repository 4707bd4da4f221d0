//! Lists of shared knots.

ghost use Rattle.std.specs.Prelude.{◌≡◌, ◌+◌, ◌≤◌, ◌++◌, length, vec_len, vec_capacity, IfOk};

use crate::node::Knot;
use ix_values::Value;
use std::alloc::{AllocError, Global};

/// The knots, and behind them equal ones of the same nodes, in the same order. There is room for
/// these, so none is asked for. After an error all are dropped.
pub fn with_shared(mut all: Vec<Knot>, knots: &[Knot]) -> Result<Vec<Knot>, AllocError>
    requires room { vec_len all + length knots.now ≤ vec_capacity all }
    ensures items { IfOk result (λ v. v.items ≡ all.items ++ knots.now) }
    ensures len { IfOk result (λ v. vec_len v ≡ vec_len all + length knots.now) }
    ensures capacity { IfOk result (λ v. vec_capacity v ≡ vec_capacity all) }
{
    for knot in knots {
        all.push_reserved(knot.share()?);
    }
    Ok(all)
}

/// Equal knots of the same nodes, in the same order, and room for one more.
pub fn share_knots(alloc: Global, knots: &[Knot]) -> Result<Vec<Knot>, AllocError>
    ensures { IfOk result (λ v. v.items ≡ knots.now) }
{
    let shared = Vec::with_capacity(alloc, knots.len().saturating_add(1))?;
    with_shared(shared, knots)
}

/// The entries, and behind them the same values with equal knots of the same nodes, in the same
/// order. There is room for these, so none is asked for. After an error all are dropped.
pub(crate) fn with_shared_entries(
    mut all: Vec<(Value, Knot)>,
    entries: &[(Value, Knot)],
) -> Result<Vec<(Value, Knot)>, AllocError>
    requires room { vec_len all + length entries.now ≤ vec_capacity all }
    ensures items { IfOk result (λ v. v.items ≡ all.items ++ entries.now) }
    ensures len { IfOk result (λ v. vec_len v ≡ vec_len all + length entries.now) }
    ensures capacity { IfOk result (λ v. vec_capacity v ≡ vec_capacity all) }
{
    for entry in entries {
        let knot = entry.1.share()?;
        all.push_reserved((entry.0, knot));
    }
    Ok(all)
}

/// The same values with equal knots of the same nodes, in the same order.
pub(crate) fn share_entries(
    alloc: Global,
    entries: &[(Value, Knot)],
) -> Result<Vec<(Value, Knot)>, AllocError>
    ensures { IfOk result (λ v. v.items ≡ entries.now) }
{
    let shared = Vec::with_capacity(alloc, entries.len())?;
    with_shared_entries(shared, entries)
}
