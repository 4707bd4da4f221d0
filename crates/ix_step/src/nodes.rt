//! The making of nodes within a limit.

ghost use Rattle.std.specs.Prelude.{◌≡◌, ◌≤◌, ◌^◌, ◌&&◌, not, true, map, IfOk};
ghost use Rattle.std.specs.List.{list_all};
ghost use Rattle.ix_tree.specs.Order.{first_part};
ghost use Rattle.ix_tree.specs.Plain.{dead, done, is_done, listed, items_of, or as or_of};
ghost use Rattle.ix_tree.specs.PlainOf.{plain_pair, plain_entries};
ghost use Rattle.ix_tree.specs.inside.PlainNode.{plain_node};
ghost use Rattle.ix_tree.specs.Size.{size_of};
ghost use Rattle.ix_can.specs.Nodes.{is_ended, is_spent, only_pair_done, settled, unless_done};
ghost use Rattle.ix_can.specs.Ways.{is_empty};
ghost use Rattle.ix_step.specs.inside.Limits.{most_limit};
ghost use Rattle.ix_step.specs.inside.Makes.{Makes};
ghost use Rattle.ix_step.specs.inside.Pruned.{has_died, is_none, pruned};

use crate::fault::Unbuilt;
use crate::one_step::Step;
use ix_tree::{Entries, Knot, Node, Pair};
use std::alloc::AllocError;

/// Drops a node that isn't kept. It is a function of its own, so that the ones that make nodes have
/// few locals, which are cleared at each call.
#[inline(never)]
fn dropped(_node: Node) {}

/// The knot of the node, whose Size is known.
#[inline]
fn sized(step: Step, node: Node, size: usize) -> Result<Knot, Unbuilt>
    requires size { size ≡ size_of (plain_node node) }
    requires most { size ≤ 2 ^ 32 }
    ensures { Makes step.entry.limit (plain_node node) result }
{
    if size > step.limit {
        dropped(node);
        return Err(Unbuilt::Over);
    }
    Ok(Knot::sized(step.alloc, node, size)?)
}

/// The knot of the node, whose Size is added up from what its parts keep, or the tree that is done
/// where the node is spent.
pub(crate) fn settled_within(step: Step, node: Node) -> Result<Knot, Unbuilt>
    requires { size_of (plain_node node) ≤ 2 ^ 32 }
    ensures { Makes step.entry.limit (settled (plain_node node)) result }
{
    if is_spent(&node) {
        dropped(node);
        return done_knot(step);
    }
    let size = node.size();
    sized(step, node, size)
}

/// The tree that is done.
pub(crate) fn done_knot(step: Step) -> Result<Knot, Unbuilt>
    ensures { Makes step.entry.limit done result }
{
    Ok(step.leaves.done.share()?)
}

/// The dead tree in place of one that is done, and else the tree itself.
pub(crate) fn unless_done(step: Step, tree: Knot) -> Result<Knot, AllocError>
    ensures { IfOk result (λ t. t ≡ unless_done tree) }
{
    if tree.is_done() {
        return step.leaves.dead.share();
    }
    Ok(tree)
}

/// The dead tree.
pub(crate) fn dead_knot(step: Step) -> Result<Knot, Unbuilt>
    ensures { Makes step.entry.limit dead result }
{
    Ok(step.leaves.dead.share()?)
}

/// The knot of the node or, where none of its parts is live, the dead one, or the one that is done
/// where the node is spent.
pub(crate) fn within_if_live(step: Step, node: Node) -> Result<Knot, Unbuilt>
    requires { size_of (plain_node node) ≤ 2 ^ 32 }
    ensures { Makes step.entry.limit (pruned (plain_node node)) result }
{
    let size = node.size();
    sized_if_live(step, node, size)
}

/// The knot of the node, whose Size is known, or, where none of its parts is live, the dead one, or
/// the one that is done where the node is spent. Both are asked first: the Size of such a node
/// doesn't count.
pub(crate) fn sized_if_live(step: Step, node: Node, size: usize) -> Result<Knot, Unbuilt>
    requires size { size ≡ size_of (plain_node node) }
    requires most { size ≤ 2 ^ 32 }
    ensures { Makes step.entry.limit (pruned (plain_node node)) result }
{
    if has_died(&node) {
        dropped(node);
        return dead_knot(step);
    }
    if is_spent(&node) {
        dropped(node);
        return done_knot(step);
    }
    sized(step, node, size)
}

/// The knot of `y | z` from both of its states, the dead one where both are dead, or the one that
/// is done where no action moves either.
pub(crate) fn or_within(step: Step, left: Knot, right: Knot) -> Result<Knot, Unbuilt>
    requires first { size_of left ≤ most_limit }
    requires second { size_of right ≤ most_limit }
    ensures { Makes step.entry.limit (pruned (or_of left right)) result }
{
    if is_ended(&left) && is_ended(&right) {
        return ended_or(step, &left, &right);
    }
    let size = 1 + left.size() + right.size();
    sized(step, Node::Or(left, right), size)
}

/// What `y | z` becomes where no action moves either of its states.
fn ended_or(step: Step, left: &Knot, right: &Knot) -> Result<Knot, Unbuilt>
    requires first { is_ended left.now ≡ true }
    requires second { is_ended right.now ≡ true }
    ensures { Makes step.entry.limit (pruned (or_of left.now right.now)) result }
{
    if left.is_dead() && right.is_dead() {
        return dead_knot(step);
    }
    done_knot(step)
}

/// Whether no part of the node is live, where it is enough that one is.
fn has_died(node: &Node) -> bool
    ensures { result ≡ has_died (plain_node node.now) }
{
    match node {
        Node::Opt(_, x) => x.is_dead(),
        Node::Seq(first, ended, rest) => first.is_dead() && none_left(*ended, rest),
        Node::Star(again, rest) => none_left(*again, rest),
        Node::Par(pairs) => pairs.as_slice().is_empty(),
        Node::ParStar(bags) => bags.as_slice().is_empty(),
        Node::Or(left, right) => left.is_dead() && right.is_dead(),
        Node::Any(common, entries) => common.is_dead() && entries.is_empty(),
        Node::All(maps) => maps.as_slice().is_empty(),
        Node::Times(bags) => bags.as_slice().is_empty(),
        _ => false,
    }
}

/// Whether there is neither a part that is done nor one that is open.
fn none_left(ended: bool, trees: &[Knot]) -> bool
    ensures { result ≡ (not ended && is_none (listed trees.now)) }
{
    !ended && trees.is_empty()
}

/// Whether the live node is spent: its word is complete, and no action moves it.
fn is_spent(node: &Node) -> bool
    ensures { result ≡ is_spent (plain_node node.now) }
{
    match node {
        Node::Opt(_, x) => x.is_done(),
        Node::Seq(first, _, rest) => first.is_dead() && rest.as_slice().is_empty(),
        Node::Par(pairs) => only_pair_done(pairs),
        Node::Or(left, right) => is_ended(left) && is_ended(right),
        Node::And(left, right) | Node::Couple(left, right) => left.is_done() && right.is_done(),
        Node::Any(common, entries) => is_ended(common) && each_ended(entries),
        Node::Every(common, entries) | Node::Sync(common, entries) => alone_done(common, entries),
        _ => false,
    }
}

/// Whether no action moves the tree, as it is dead or done.
pub(crate) fn is_ended(tree: &Knot) -> bool
    ensures { result ≡ is_ended tree.now }
{
    tree.is_dead() || tree.is_done()
}

/// Whether there is one pair alone, of two trees that are done.
fn only_pair_done(pairs: &[Pair]) -> bool
    ensures { result ≡ only_pair_done (items_of (listed (map plain_pair pairs.now))) }
{
    match pairs {
        [pair] => pair.first.is_done() && pair.second.is_done(),
        [_first, _second, _rest @ ..] => false,
        [] => false,
    }
}

/// Whether the common tree is done and there is no entry.
fn alone_done(common: &Knot, entries: &Entries) -> bool
    ensures { result ≡ (is_done common.now && is_empty (items_of (plain_entries entries.now))) }
{
    common.is_done() && entries.is_empty()
}

/// Whether no action moves the tree of any entry.
fn each_ended(entries: &Entries) -> bool
    ensures { result
        ≡ list_all (λ x. is_ended (first_part x)) (items_of (plain_entries entries.now)) }
{
    for entry in entries.iter() {
        if !is_ended(&entry.1) {
            return false;
        }
    }
    true
}

/// The tree itself, if its Size is at most the limit.
pub(crate) fn bounded(tree: Knot, limit: usize) -> Result<Knot, Unbuilt>
    ensures { Makes limit tree result }
{
    if tree.size() > limit {
        return Err(Unbuilt::Over);
    }
    Ok(tree)
}
