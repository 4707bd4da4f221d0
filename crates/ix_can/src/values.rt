//! Entries of values by their values.

ghost use Rattle.std.specs.Prelude.{◌≡◌, MatchOption};
ghost use Rattle.ix_entries.specs.inside.Entries.{KeysAscend};
ghost use Rattle.ix_values.specs.Order.{text_cmp};
ghost use Rattle.ix_tree.specs.Plain.{dead, items_of};
ghost use Rattle.ix_tree.specs.PlainOf.{plain_entries};
ghost use Rattle.ix_can.specs.May.{tree_at};

use ix_tree::{Entries, Knot};
use ix_values::Value;

/// The state of the value, or None where the value has no entry. The values ascend strictly.
pub fn state_of<'a>(entries: &'a Entries, value: &Value) -> Option<&'a Knot>
    requires { KeysAscend text_cmp entries.now }
    ensures { MatchOption result
        (tree_at value.now dead (items_of (plain_entries entries.now)) ≡ dead)
        (λ state. state.now ≡ tree_at value.now dead (items_of (plain_entries entries.now))) }
{
    entries.get(value)
}

/// The state of the value, which is the common one where the value has no entry. The values ascend
/// strictly.
pub fn state_at<'a>(entries: &'a Entries, common: &'a Knot, value: &Value) -> &'a Knot
    requires { KeysAscend text_cmp entries.now }
    ensures { result.now ≡ tree_at value.now common.now (items_of (plain_entries entries.now)) }
{
    match entries.get(value) {
        Some(state) => state,
        None => common,
    }
}
