//! The moved trees of the quantifiers `any`, `every` and `sync`.

ghost use Rattle.std.specs.Prelude.{◌≡◌, ◌≤◌, true, false, None, Some, map};
ghost use Rattle.ix_words.specs.Each.{Member};
ghost use Rattle.ix_expr.specs.Environment.{bind};
ghost use Rattle.ix_expr.specs.Fitting.{FitsInside};
ghost use Rattle.ix_expr.specs.Form.{any, every, sync};
ghost use Rattle.ix_expr.specs.inside.FormOf.{form_of};
ghost use Rattle.ix_tree.specs.Plain.{any as any_of, every as every_of, sync as sync_of};
ghost use Rattle.ix_tree.specs.PlainOf.{plain_entry, plain_entries};
ghost use Rattle.ix_tree.specs.Size.{size_of};
ghost use Rattle.ix_can.specs.Laws.{IsProper};
ghost use Rattle.ix_can.specs.Nodes.{settled};
ghost use Rattle.ix_expr.specs.Tests.{in_alphabet};
ghost use Rattle.ix_step.specs.declared.bodies.Reach.TheVariants.{Must, OwnAlphabet};
ghost use Rattle.ix_step.specs.inside.Limits.{most_size};
ghost use Rattle.ix_step.specs.inside.Makes.{Makes};
ghost use Rattle.ix_step.specs.inside.MovedNode.{moved_node};
ghost use Rattle.ix_step.specs.inside.Pruned.{pruned};
ghost use Rattle.ix_step.specs.inside.ValueTrees.{ReadyInside, part_may, EachMay, moved_part};
ghost use Rattle.ix_step.specs.inside.ValueTrees.{common_after, entries_after, MakesEntries};
ghost use Rattle.ix_step.specs.inside.ValueTrees.{tree_after, MakesOne};
ghost use Rattle.ix_step.specs.inside.ValueTrees.{MakesParts, MakesOwn};

use crate::advance::{advance, advance_asked};
use crate::bodies::{Body, Reach};
use crate::coupling::advance_side;
use crate::entries::{put_tree, touched_values};
use crate::fault::Unbuilt;
use crate::nodes::{bounded, dead_knot, is_ended, settled_within, within_if_live};
use crate::one_step::{Step, larger};
use ix_can::state_at;
use ix_expr::contains;
use ix_tree::{Entries, Knot, Node};
use ix_values::Value;

/// The common state after the action, and the states of the values that differ from it. Only the
/// values that have entries and the action's own are looked at: every other one moves as the
/// common state does.
#[cycle(advance)]
fn advance_values(
    step: Step,
    body: Body,
    reach: Reach,
    common: &Knot,
    entries: &Entries,
) -> Result<(Knot, Entries), Unbuilt>
    requires ready { ReadyInside body.parameter.now (form_of body.expr.now) step.env.now common.now
        (map plain_entry entries.now) }
    requires common { part_may reach (form_of body.expr.now) (bind body.parameter.now None
        step.env.now) step.action.now common.now ≡ true }
    requires each { EachMay reach body.parameter.now (form_of body.expr.now) step.env.now
        step.action.now common.now entries.now }
    ensures { MakesParts step.entry.limit
        (common_after reach body.entry.parameter.now (form_of body.entry.expr.now)
        step.entry.env.now step.entry.action.now common.now)
        (entries_after reach body.entry.parameter.now (form_of body.entry.expr.now)
        step.entry.env.now step.entry.action.now common.now (plain_entries entries.now))
        result }
{
    let next = advance_at(step, body, reach, None, common)?;
    let entries = advance_entries(step, body, reach, common, entries, &next)?;
    Ok((next, entries))
}

/// `next` is the moved common state: a state that equals it leaves no entry.
#[cycle(advance)]
fn advance_entries(
    step: Step,
    body: Body,
    reach: Reach,
    common: &Knot,
    entries: &Entries,
    next: &Knot,
) -> Result<Entries, Unbuilt>
    requires ready { ReadyInside body.parameter.now (form_of body.expr.now) step.env.now common.now
        (map plain_entry entries.now) }
    requires each { EachMay reach body.parameter.now (form_of body.expr.now) step.env.now
        step.action.now common.now entries.now }
    requires next { next.now ≡ common_after reach body.parameter.now (form_of body.expr.now)
        step.env.now step.action.now common.now }
    ensures { MakesEntries step.entry.limit next.now
        (entries_after reach body.entry.parameter.now (form_of body.entry.expr.now)
        step.entry.env.now step.entry.action.now common.now (plain_entries entries.now))
        result }
{
    let values = touched_values(step.alloc, body, entries, step.action)?;
    let mut built = Vec::new(step.alloc);
    let mut total = 0;
    for value in &values {
        let state = state_at(entries, common, value);
        let tree = advance_at(step, body, reach, Some(*value), state)?;
        total = put_tree(&mut built, total, next, *value, tree, step.limit)?;
    }
    Ok(Entries::of(step.alloc, built)?)
}

/// The moved tree of `any`. Where it becomes done, its common state and the states of its values
/// are each dead or done, but together they may be above the limit. So they are built within what
/// so many of them may take, and only the finished node is compared with the limit.
#[cycle(advance)]
#[inline(never)]
pub(crate) fn advance_any(
    step: Step,
    body: Body,
    common: &Knot,
    entries: &Entries,
) -> Result<Knot, Unbuilt>
    requires { ReadyInside body.parameter.now (form_of body.expr.now) step.env.now common.now
        (map plain_entry entries.now) }
    ensures { Makes step.entry.limit
        (pruned
        (moved_node (any body.entry.parameter.now (form_of body.entry.expr.now)) step.entry.env.now
        (any_of common.now (plain_entries entries.now)) step.entry.action.now))
        result }
{
    let room = 2 * (entries.len() + step.action.values().len()) + 1;
    let wide = Step {
        action: step.action,
        env: step.env,
        alloc: step.alloc,
        limit: larger(step.limit, room),
        leaves: step.leaves,
    };
    let (common, entries) = advance_values(wide, body, Reach::All, common, entries)?;
    within_if_live(step, Node::Any(common, entries))
}

/// The moved tree of `every`.
#[cycle(advance)]
#[inline(never)]
pub(crate) fn advance_every(
    step: Step,
    body: Body,
    common: &Knot,
    entries: &Entries,
) -> Result<Knot, Unbuilt>
    requires ready { ReadyInside body.parameter.now (form_of body.expr.now) step.env.now common.now
        (map plain_entry entries.now) }
    requires common { part_may Must (form_of body.expr.now) (bind body.parameter.now None
        step.env.now) step.action.now common.now ≡ true }
    requires each { EachMay Must body.parameter.now (form_of body.expr.now) step.env.now
        step.action.now common.now entries.now }
    ensures { Makes step.entry.limit
        (settled
        (moved_node (every body.entry.parameter.now (form_of body.entry.expr.now))
        step.entry.env.now (every_of common.now (plain_entries entries.now))
        step.entry.action.now))
        result }
{
    let (common, entries) = advance_values(step, body, Reach::Must, common, entries)?;
    settled_within(step, Node::Every(common, entries))
}

/// The moved tree of `sync`. Where outside isn't in the alphabet, the common state stays, and of
/// the values only the action's own may move.
#[cycle(advance)]
#[inline(never)]
pub(crate) fn advance_sync(
    step: Step,
    body: Body,
    common: &Knot,
    entries: &Entries,
) -> Result<Knot, Unbuilt>
    requires ready { ReadyInside body.parameter.now (form_of body.expr.now) step.env.now common.now
        (map plain_entry entries.now) }
    requires common { part_may OwnAlphabet (form_of body.expr.now)
        (bind body.parameter.now None step.env.now) step.action.now common.now ≡ true }
    requires each { EachMay OwnAlphabet body.parameter.now (form_of body.expr.now) step.env.now
        step.action.now common.now entries.now }
    ensures { Makes step.entry.limit
        (settled
        (moved_node (sync body.entry.parameter.now (form_of body.entry.expr.now)) step.entry.env.now
        (sync_of common.now (plain_entries entries.now)) step.entry.action.now))
        result }
{
    let mut outside = *step.env;
    outside.bind(*body.parameter, None);
    if contains(body.expr, &outside, step.action) {
        let own = Reach::OwnAlphabet;
        let (common, entries) = advance_values(step, body, own, common, entries)?;
        return settled_within(step, Node::Sync(common, entries));
    }
    let entries = advance_own(step, body, common, entries)?;
    settled_within(step, Node::Sync(common.share()?, entries))
}

/// The states of `sync` where outside isn't in the alphabet.
#[cycle(advance)]
fn advance_own(step: Step, body: Body, common: &Knot, entries: &Entries) -> Result<Entries, Unbuilt>
    requires ready { ReadyInside body.parameter.now (form_of body.expr.now) step.env.now common.now
        (map plain_entry entries.now) }
    requires outside { in_alphabet (form_of body.expr.now)
        (bind body.parameter.now None step.env.now) step.action.now ≡ false }
    requires each { EachMay OwnAlphabet body.parameter.now (form_of body.expr.now) step.env.now
        step.action.now common.now entries.now }
    ensures { MakesOwn step.entry.limit common.now
        (entries_after OwnAlphabet body.entry.parameter.now (form_of body.entry.expr.now)
        step.entry.env.now step.entry.action.now common.now (plain_entries entries.now))
        result }
{
    match step.action.values() {
        [] => Ok(entries.share(step.alloc)?),
        [first, later @ ..] => {
            let tree = advance_own_at(step, body, common, entries, first)?;
            let mut own = entries.with(step.alloc, common, *first, tree)?;
            for value in later {
                let tree = advance_own_at(step, body, common, entries, value)?;
                own = own.with(step.alloc, common, *value, tree)?;
            }
            Ok(own)
        }
    }
}

/// The state of one of the action's own values after the action.
#[cycle(advance)]
fn advance_own_at(
    step: Step,
    body: Body,
    common: &Knot,
    entries: &Entries,
    value: &Value,
) -> Result<Knot, Unbuilt>
    requires ready { ReadyInside body.parameter.now (form_of body.expr.now) step.env.now common.now
        (map plain_entry entries.now) }
    requires outside { in_alphabet (form_of body.expr.now)
        (bind body.parameter.now None step.env.now) step.action.now ≡ false }
    requires each { EachMay OwnAlphabet body.parameter.now (form_of body.expr.now) step.env.now
        step.action.now common.now entries.now }
    requires own { Member value.now step.action.now.values }
    ensures { MakesOne step.entry.limit
        (tree_after OwnAlphabet body.entry.parameter.now (form_of body.entry.expr.now)
        step.entry.env.now step.entry.action.now common.now (map plain_entry entries.now) value.now)
        common.now
        (entries_after OwnAlphabet body.entry.parameter.now (form_of body.entry.expr.now)
        step.entry.env.now step.entry.action.now common.now (plain_entries entries.now))
        result }
{
    let state = state_at(entries, common, value);
    advance_at(step, body, Reach::OwnAlphabet, Some(*value), state)
}

/// The state under a value after the action, where a value of None is outside.
#[cycle(advance)]
fn advance_at(
    step: Step,
    body: Body,
    reach: Reach,
    value: Option<Value>,
    state: &Knot,
) -> Result<Knot, Unbuilt>
    requires fits { FitsInside body.parameter.now (form_of body.expr.now) step.env.now }
    requires proper { IsProper (form_of body.expr.now) state.now }
    requires small { size_of state.now ≤ most_size }
    requires may { part_may reach (form_of body.expr.now) (bind body.parameter.now value
        step.env.now) step.action.now state.now ≡ true }
    ensures { Makes step.entry.limit
        (moved_part reach (form_of body.entry.expr.now) (bind body.entry.parameter.now value
        step.entry.env.now) step.entry.action.now state.now)
        result }
{
    if matches!(reach, Reach::All) && is_ended(state) {
        return dead_knot(step);
    }
    let mut env = *step.env;
    env.bind(*body.parameter, value);
    let inside = Step {
        action: step.action,
        env: &env,
        alloc: step.alloc,
        limit: step.limit,
        leaves: step.leaves,
    };
    match reach {
        Reach::All => advance(inside, body.expr, state),
        Reach::Must => advance_asked(inside, body.expr, state),
        Reach::OwnAlphabet => bounded(advance_side(inside, body.expr, state)?.tree, step.limit),
    }
}
