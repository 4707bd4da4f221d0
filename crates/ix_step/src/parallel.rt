//! The moving of `+`, `#` and `times`: each alternative gives one more for each of its parts that
//! can move.

ghost use Rattle.std.specs.Prelude.{◌≡◌, ℕ, ◌<◌, ◌≤◌, Some, length, map, flat_map, remove};
ghost use Rattle.std.specs.List.{list_all, list_any};
ghost use Rattle.ix_words.specs.Each.{Each};
ghost use Rattle.ix_expr.specs.inside.FormOf.{form_of};
ghost use Rattle.ix_expr.specs.Form.{par, par_star, times};
ghost use Rattle.ix_tree.specs.Plain.{listed, items_of, par as par_of, par_star as par_star_of};
ghost use Rattle.ix_tree.specs.Plain.{times as times_of};
ghost use Rattle.ix_tree.specs.Order.{first_part};
ghost use Rattle.ix_tree.specs.PlainOf.{plain_pair, plain_bag};
ghost use Rattle.ix_tree.specs.Size.{size_of};
ghost use Rattle.ix_can.specs.Laws.{IsRising};
ghost use Rattle.ix_can.specs.Nodes.{is_done, only_bag_done, settled_times};
ghost use Rattle.ix_step.specs.inside.Limits.{most_size, most_limit};
ghost use Rattle.ix_step.specs.inside.Makes.{Makes, Collects, Gathers};
ghost use Rattle.ix_step.specs.inside.MovedNode.{moved_node};
ghost use Rattle.ix_step.specs.inside.ParallelMoves.{pair_moves, pick_move, pick_moves, bag_moves};
ghost use Rattle.ix_step.specs.inside.ParallelMoves.{IsReadyPair, IsReadyBag, IsRepeat};
ghost use Rattle.ix_step.specs.inside.ParallelMoves.{IsFirstRun, full_runs, has_room};
ghost use Rattle.ix_step.specs.inside.Pruned.{pruned};
ghost use Rattle.ix_step.specs.inside.Ready.{Ready};

use crate::advance::advance;
use crate::bags::{has_room, put_more, put_moved};
use crate::beginning::advance_again;
use crate::bodies::Runs;
use crate::fault::Unbuilt;
use crate::nodes::{dead_knot, done_knot, sized_if_live};
use crate::one_step::{Step, larger};
use crate::pairs::put_pairs;
use ix_alts::AltSet;
use ix_expr::Expr;
use ix_tree::{Bag, Knot, Node, Pair};

/// The alternatives are built within at least 65, and only the finished node is compared with the
/// limit: where it becomes done, its alternatives don't count.
#[cycle(advance)]
#[inline(never)]
pub(crate) fn advance_par(step: Step, y: &Expr, z: &Expr, pairs: &[Pair]) -> Result<Knot, Unbuilt>
    requires { Ready (par (form_of y.now) (form_of z.now)) step.env.now
        (par_of (listed (map plain_pair pairs.now))) }
    ensures { Makes step.entry.limit (pruned (moved_node (par (form_of y.now) (form_of z.now))
        step.entry.env.now (par_of (listed (map plain_pair pairs.now))) step.entry.action.now))
        result }
{
    // The one pair of a node that becomes done may be above the limit while it is built.
    let wide = Step {
        action: step.action,
        env: step.env,
        alloc: step.alloc,
        limit: larger(step.limit, 65),
        leaves: step.leaves,
    };
    let set = advance_pairs(wide, y, z, pairs)?;
    let size = 1 + set.total();
    sized_if_live(step, Node::Par(set.into_items()), size)
}

#[cycle(advance)]
fn advance_pairs(step: Step, y: &Expr, z: &Expr, pairs: &[Pair]) -> Result<AltSet<Pair>, Unbuilt>
    requires ready { Each (IsReadyPair (form_of y.now) (form_of z.now) step.env.now) (map plain_pair
        pairs.now) }
    requires small { Each (λ p. size_of p ≤ most_size) (map plain_pair pairs.now) }
    ensures { Collects (map plain_pair) step.entry.limit (flat_map (pair_moves (form_of y.now)
        (form_of z.now) step.entry.env.now step.entry.action.now) (map plain_pair
        pairs.now)) result }
{
    let mut set = AltSet::new(step.alloc, step.limit);
    for pair in pairs {
        let left = advance(step, y, &pair.first)?;
        let right = advance(step, z, &pair.second)?;
        put_pairs(&mut set, pair, left, right)?;
    }
    Ok(set)
}

#[cycle(advance)]
#[inline(never)]
pub(crate) fn advance_par_star(step: Step, y: &Expr, bags: &[Bag]) -> Result<Knot, Unbuilt>
    requires { Ready (par_star (form_of y.now)) step.env.now (par_star_of (listed (map plain_bag
        bags.now))) }
    ensures { Makes step.entry.limit (pruned (moved_node (par_star (form_of y.now))
        step.entry.env.now (par_star_of (listed (map plain_bag bags.now))) step.entry.action.now))
        result }
{
    if bags.is_empty() {
        return dead_knot(step);
    }
    let first = advance_again(step, y, true)?;
    let runs = Runs {
        expr: y,
        wanted: None,
    };
    let set = advance_bags(step, runs, &first, bags)?;
    let size = 1 + set.total();
    sized_if_live(step, Node::ParStar(set.into_items()), size)
}

/// The alternatives are built within at least what the bag of a node weighs that becomes done, and
/// only the finished node is compared with the limit. A first run is built only where some bag has
/// room for it.
#[cycle(advance)]
#[inline(never)]
pub(crate) fn advance_times(step: Step, number: u8, y: &Expr, bags: &[Bag]) -> Result<Knot, Unbuilt>
    requires { Ready (times number (form_of y.now)) step.env.now (times_of (listed (map plain_bag
        bags.now))) }
    ensures { Makes step.entry.limit (pruned (moved_node (times number (form_of y.now))
        step.entry.env.now (times_of (listed (map plain_bag bags.now))) step.entry.action.now))
        result }
{
    let wide = Step {
        action: step.action,
        env: step.env,
        alloc: step.alloc,
        limit: larger(step.limit, usize::from(number) + 1),
        leaves: step.leaves,
    };
    let runs = Runs {
        expr: y,
        wanted: Some(number),
    };
    let first = advance_again(wide, y, some_room(number, bags))?;
    let set = advance_bags(wide, runs, &first, bags)?;
    full_or_within(step, number, set)
}

/// The finished node: done where its only bag has so many runs, all of them done.
fn full_or_within(step: Step, number: u8, set: AltSet<Bag>) -> Result<Knot, Unbuilt>
    requires { size_of (listed (map plain_bag set.items)) ≤ most_limit }
    ensures { Makes step.entry.limit
        (pruned (settled_times number (listed (map plain_bag set.items)))) result }
{
    let size = 1 + set.total();
    let bags = set.into_items();
    if only_bag_done(number, &bags) {
        return done_knot(step);
    }
    sized_if_live(step, Node::Times(bags), size)
}

/// Whether some bag has fewer runs than are wanted.
fn some_room(number: u8, bags: &[Bag]) -> bool
    ensures { result
        ≡ list_any (λ b. has_room (Some number) (items_of (first_part b)))
        (map plain_bag bags.now) }
{
    for bag in bags {
        if bag_has_room(number, bag) {
            return true;
        }
    }
    false
}

fn bag_has_room(number: u8, bag: &Bag) -> bool
    ensures { result ≡ has_room (Some number) (items_of (listed bag.now.items.items)) }
{
    has_room(Some(number), &bag.items)
}

/// Whether there is one bag alone, and in it so many runs, of which there are some, all done.
fn only_bag_done(number: u8, bags: &[Bag]) -> bool
    ensures { result ≡ only_bag_done number (map plain_bag bags.now) }
{
    match bags {
        [bag] => is_full(number, &bag.items),
        [_first, _second, _rest @ ..] => false,
        [] => false,
    }
}

/// Whether there are so many runs, and some, and all are done.
fn is_full(number: u8, items: &[Knot]) -> bool
    ensures { result ≡ full_runs number (items_of (listed items.now)) }
{
    if items.is_empty() {
        return false;
    }
    if items.len() != usize::from(number) {
        return false;
    }
    each_done(items)
}

fn each_done(items: &[Knot]) -> bool
    ensures { result ≡ list_all is_done (items_of (listed items.now)) }
{
    for item in items {
        if !item.is_done() {
            return false;
        }
    }
    true
}

/// Each bag gives one for each of its trees, with that one moved, and, where there is room, one
/// with a run more, whose tree is `first`.
#[cycle(advance)]
fn advance_bags(step: Step, runs: Runs, first: &Knot, bags: &[Bag]) -> Result<AltSet<Bag>, Unbuilt>
    requires ready { Each (IsReadyBag (form_of runs.expr.now) step.env.now)
        (map plain_bag bags.now) }
    requires first { IsFirstRun runs.wanted (form_of runs.expr.now) step.env.now step.action.now
        (map plain_bag bags.now) first.now }
    requires small { size_of first.now ≤ most_limit }
    ensures { Collects (map plain_bag) step.entry.limit
        (flat_map
        (bag_moves runs.entry.wanted (form_of runs.entry.expr.now) step.entry.env.now
        step.entry.action.now) (map plain_bag bags.now)) result }
{
    let mut set = AltSet::new(step.alloc, step.limit);
    for bag in bags {
        advance_picks(step, runs, &bag.items, &mut set)?;
        put_more(step.alloc, &mut set, runs.wanted, first, &bag.items)?;
    }
    Ok(set)
}

/// The bag of the trees gives one for each of them, with that one moved. Of a run of equal trees
/// one is moved: the others would give the same bag, which is in the set already.
#[cycle(advance)]
fn advance_picks(
    step: Step,
    runs: Runs,
    items: &[Knot],
    set: &mut AltSet<Bag>,
) -> Result<(), Unbuilt>
    requires ready { Each (Ready (form_of runs.expr.now) step.env.now) items.now }
    requires rising { IsRising items.now }
    requires size { size_of (listed items.now) ≤ most_size }
    requires budget { set.old.budget ≡ step.limit }
    requires within { size_of (listed (map plain_bag set.old.items)) ≤ step.limit }
    ensures gathers { Gathers step.entry.limit
        (pick_moves runs.entry.wanted (form_of runs.entry.expr.now) step.entry.env.now
        step.entry.action.now items.now) (map plain_bag set.old.items) (map plain_bag set.new.items)
        result }
    ensures within { size_of (listed (map plain_bag set.new.items)) ≤ step.entry.limit }
    ensures budget { set.new.budget ≡ step.entry.limit }
{
    let mut place = 0;
    while place < items.len() {
        let item = &items[place];
        advance_pick(step, runs, items, place, item, set)?;
        place = run_end(items, place);
    }
    Ok(())
}

/// The bag with the tree at the place moved.
#[cycle(advance)]
fn advance_pick(
    step: Step,
    runs: Runs,
    items: &[Knot],
    place: usize,
    item: &Knot,
    set: &mut AltSet<Bag>,
) -> Result<(), Unbuilt>
    requires ready { Ready (form_of runs.expr.now) step.env.now item.now }
    requires rising { IsRising items.now }
    requires size { size_of (listed items.now) ≤ most_size }
    requires place { place < length items.now }
    requires budget { set.old.budget ≡ step.limit }
    requires within { size_of (listed (map plain_bag set.old.items)) ≤ step.limit }
    ensures gathers { Gathers step.entry.limit
        (pick_move runs.entry.wanted (form_of runs.entry.expr.now) step.entry.env.now
        step.entry.action.now (item.now, remove items.now place)) (map plain_bag set.old.items)
        (map plain_bag set.new.items) result }
    ensures within { size_of (listed (map plain_bag set.new.items)) ≤ step.entry.limit }
    ensures budget { set.new.budget ≡ step.entry.limit }
{
    let tree = advance(step, runs.expr, item)?;
    put_moved(step.alloc, set, runs.wanted, tree, items, place)
}

/// Where the trees equal to the one at the place end. The last tree is asked first: a bag's last
/// run needs no search.
fn run_end(items: &[Knot], place: usize) -> usize
    requires rising { IsRising items.now }
    requires place { place < length items.now }
    ensures behind { place < result }
    ensures within { result ≤ length items.now }
    ensures repeats { (k : ℕ) → place < k → k < result → IsRepeat items.now k }
{
    let first = &items[place];
    let last = &items[items.len() - 1];
    if !last.cmp(first).is_gt() {
        return items.len();
    }
    items.partition_point(|item| !item.cmp(first).is_gt())
}
