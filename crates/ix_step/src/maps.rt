//! The moved tree of the quantifier `all`.

ghost use Rattle.std.specs.Prelude.{◌≡◌, ◌≤◌, List, IfOk, MatchResult, map, flat_map};
ghost use Rattle.ix_words.specs.Each.{Each};
ghost use Rattle.ix_expr.specs.inside.FormOf.{form_of};
ghost use Rattle.ix_expr.specs.Form.{Form, all};
ghost use Rattle.ix_tree.specs.Plain.{Plain, dead, listed, items_of, all as all_of};
ghost use Rattle.ix_tree.specs.PlainOf.{plain_map, plain_entries};
ghost use Rattle.ix_tree.specs.Order.{first_part};
ghost use Rattle.ix_tree.specs.Size.{size_of};
ghost use Rattle.ix_can.specs.May.{tree_at};
ghost use Rattle.ix_can.specs.inside.Moved.{map_with, or_initial};
ghost use Rattle.ix_entries.specs.inside.Entries.{KeysAscend};
ghost use Rattle.ix_values.specs.Order.{text_cmp};
ghost use Rattle.ix_step.specs.inside.Limits.{most_limit};
ghost use Rattle.ix_step.specs.inside.Makes.{Makes, Collects, Gathers, IsAboveLimit, put_all};
ghost use Rattle.ix_step.specs.inside.MovedNode.{moved_node};
ghost use Rattle.ix_step.specs.inside.Pruned.{pruned};
ghost use Rattle.ix_step.specs.inside.Ready.{Ready};
ghost use Rattle.ix_step.specs.inside.MapsAfter.{HoldsWell, ReadyToBegin, begun_tree, map_after};
ghost use Rattle.ix_step.specs.inside.MapsAfter.{maps_after, with_tree};

use crate::advance::advance;
use crate::bodies::Body;
use crate::fault::Unbuilt;
use crate::first::first_tree;
use crate::nodes::{dead_knot, sized_if_live};
use crate::one_step::{Step, larger};
use crate::sets::put as put_alternative;
use ix_alts::AltSet;
use ix_can::state_of;
use ix_expr::sees;
use ix_tree::{Entries, Knot, Map, Node};
use ix_values::Value;
use std::alloc::{AllocError, Global};

#[cycle(advance)]
#[inline(never)]
pub(crate) fn advance_all(step: Step, body: Body, maps: &[Map]) -> Result<Knot, Unbuilt>
    requires { Ready (all body.parameter.now (form_of body.expr.now)) step.env.now
        (all_of (listed (map plain_map maps.now))) }
    ensures { Makes step.entry.limit
        (pruned
        (moved_node (all body.entry.parameter.now (form_of body.entry.expr.now)) step.entry.env.now
        (all_of (listed (map plain_map maps.now))) step.entry.action.now)) result }
{
    let first = first_tree(step.leaves, body.expr)?;
    let set = advance_maps(step, body, &first, maps)?;
    let size = 1 + set.total();
    sized_if_live(step, Node::All(set.into_items()), size)
}

/// Each map gives one for each of the action's values, with the tree of that value moved. `first`
/// is the tree of the empty word.
#[cycle(advance)]
fn advance_maps(step: Step, body: Body, first: &Knot, maps: &[Map]) -> Result<AltSet<Map>, Unbuilt>
    requires ready { ReadyToBegin body.parameter.now
        (form_of body.expr.now) step.env.now first.now }
    requires held { Each (HoldsWell (form_of body.expr.now) first.now) (map plain_map maps.now) }
    ensures { Collects (map plain_map) step.entry.limit
        (flat_map
        (maps_after body.entry.parameter.now
        (form_of body.entry.expr.now) step.entry.env.now step.entry.action.now first.now
        step.entry.action.now.values) (map plain_map maps.now)) result }
{
    let mut set = AltSet::new(step.alloc, step.limit);
    for state in maps {
        advance_owners(step, body, first, state, &mut set)?;
    }
    Ok(set)
}

#[cycle(advance)]
fn advance_owners(
    step: Step,
    body: Body,
    first: &Knot,
    state: &Map,
    set: &mut AltSet<Map>,
) -> Result<(), Unbuilt>
    requires ready { ReadyToBegin body.parameter.now
        (form_of body.expr.now) step.env.now first.now }
    requires held { HoldsWell (form_of body.expr.now) first.now (plain_map state.now) }
    requires budget { set.old.budget ≡ step.limit }
    requires within { size_of (listed (map plain_map set.old.items)) ≤ step.limit }
    ensures gathers { Gathers step.entry.limit
        (maps_after body.entry.parameter.now (form_of body.entry.expr.now) step.entry.env.now
        step.entry.action.now first.now step.entry.action.now.values (plain_map state.now))
        (map plain_map set.old.items) (map plain_map set.new.items) result }
    ensures within { size_of (listed (map plain_map set.new.items)) ≤ step.entry.limit }
    ensures budget { set.new.budget ≡ step.entry.limit }
{
    for value in step.action.values() {
        let tree = advance_owner(step, body, first, state, value)?;
        put_owner(step.alloc, set, first, state, *value, tree)?;
    }
    Ok(())
}

/// A value that has no entry begins: it moves from the tree of the empty word. A value that the
/// body doesn't see can't move, since each atom names the parameter. A moved tree that equals that
/// one leaves no entry, so its Size must not count: it is built within the larger of the limit and
/// that Size.
#[cycle(advance)]
fn advance_owner(
    step: Step,
    body: Body,
    first: &Knot,
    state: &Map,
    value: &Value,
) -> Result<Knot, Unbuilt>
    requires ready { ReadyToBegin body.parameter.now
        (form_of body.expr.now) step.env.now first.now }
    requires held { HoldsWell (form_of body.expr.now) first.now (plain_map state.now) }
    ensures { MatchResult result
        (λ tree.
        (tree
        ≡ begun_tree body.entry.parameter.now
        (form_of body.entry.expr.now) step.entry.env.now step.entry.action.now first.now
        (plain_map state.now) value.now) × (size_of tree ≤ most_limit))
        (λ fault. (old : List Plain)
        → IsAboveLimit step.entry.limit
        (listed
        (put_all
        (map_after body.entry.parameter.now
        (form_of body.entry.expr.now) step.entry.env.now step.entry.action.now first.now
        (plain_map state.now) value.now) old)) fault) }
{
    if !sees(body.expr, body.parameter, value, step.action) {
        return dead_knot(step);
    }
    let mut env = *step.env;
    env.bind(*body.parameter, Some(*value));
    let inside = Step {
        action: step.action,
        env: &env,
        alloc: step.alloc,
        limit: larger(step.limit, first.size()),
        leaves: step.leaves,
    };
    advance(inside, body.expr, or_first(&state.entries, first, value))
}

/// The state of the value, or the first tree where the value has no live one.
fn or_first<'a>(entries: &'a Entries, first: &'a Knot, value: &Value) -> &'a Knot
    requires { KeysAscend text_cmp entries.now }
    ensures { result.now
        ≡ or_initial first.now (tree_at value.now dead (items_of (plain_entries entries.now))) }
{
    match state_of(entries, value) {
        Some(state) if !state.is_dead() => state,
        _ => first,
    }
}

/// The map with the value's tree. A dead tree gives no map.
fn put_owner(
    alloc: Global,
    set: &mut AltSet<Map>,
    first: &Knot,
    state: &Map,
    value: Value,
    tree: Knot,
) -> Result<(), Unbuilt>
    requires held { (y : Form) × HoldsWell y first.now (plain_map state.now) }
    requires small { size_of tree ≤ most_limit }
    requires within { size_of (listed (map plain_map set.old.items)) ≤ set.old.budget }
    ensures gathers { Gathers set.old.budget
        (map_with first.now value tree (items_of (first_part (plain_map state.now))))
        (map plain_map set.old.items) (map plain_map set.new.items) result }
    ensures within { size_of (listed (map plain_map set.new.items)) ≤ set.old.budget }
    ensures budget { set.new.budget ≡ set.old.budget }
{
    if tree.is_dead() {
        return Ok(());
    }
    let map = map_beside(alloc, state, first, value, tree)?;
    put_alternative(set, map)
}

fn map_beside(
    alloc: Global,
    state: &Map,
    first: &Knot,
    value: Value,
    tree: Knot,
) -> Result<Map, AllocError>
    requires held { (y : Form) × HoldsWell y first.now (plain_map state.now) }
    ensures { IfOk result
        (λ m. plain_map m
        ≡ with_tree first.now value tree (items_of (first_part (plain_map state.now)))) }
{
    let entries = state.entries.with(alloc, first, value, tree)?;
    Ok(Map { entries })
}
