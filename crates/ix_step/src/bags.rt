//! Bags put into sets of alternatives.

ghost use Rattle.std.specs.Prelude.{◌≡◌, ◌+◌, ◌<◌, ◌≤◌, List, [], ◌∷◌, ◌++◌, suc, length, map};
ghost use Rattle.std.specs.Prelude.{take};
ghost use Rattle.std.specs.Prelude.{drop, insert, remove, vec_len, vec_capacity};
ghost use Rattle.std.specs.Prelude.{IsTrue, IsFalse, IfOk};
ghost use Rattle.ix_tree.specs.Plain.{Plain, bag, listed};
ghost use Rattle.ix_tree.specs.PlainOf.{plain_bag};
ghost use Rattle.ix_tree.specs.Size.{size_of};
ghost use Rattle.ix_can.specs.Laws.{IsRising};
ghost use Rattle.ix_can.specs.Nodes.{put_in};
ghost use Rattle.ix_step.specs.inside.Limits.{most_size, most_limit};
ghost use Rattle.ix_step.specs.inside.Makes.{Gathers};
ghost use Rattle.ix_step.specs.inside.ParallelMoves.{more_runs, runs_with, begun_runs, has_room};

use crate::fault::Unbuilt;
use crate::sets::put;
use ix_alts::AltSet;
use ix_tree::{Bag, Knot, share_knots, with_shared};
use std::alloc::{AllocError, Global};

/// The place that keeps the trees in ascending order: before the first that isn't below this one.
/// The first tree is asked first: a tree that isn't above it needs no search.
fn place_of(tree: &Knot, others: &[Knot]) -> usize
    requires { IsRising others.now }
    ensures within { result ≤ length others.now }
    ensures place { put_in tree.now others.now ≡ insert others.now result tree.now }
{
    if others.is_empty() || !tree.cmp(&others[0]).is_gt() {
        return 0;
    }
    others.partition_point(|other| tree.cmp(other).is_gt())
}

/// The knots, and behind them the trees with one more in its place among them.
fn with_in_place(all: Vec<Knot>, tree: Knot, others: &[Knot]) -> Result<Vec<Knot>, AllocError>
    requires rising { IsRising others.now }
    requires room { vec_len all + length others.now < vec_capacity all }
    ensures items { IfOk result (λ v. v.items ≡ all.items ++ put_in tree others.now) }
    ensures len { IfOk result (λ v. vec_len v ≡ vec_len all + length others.now + 1) }
    ensures capacity { IfOk result (λ v. vec_capacity v ≡ vec_capacity all) }
{
    let place = place_of(&tree, others);
    let mut all = with_shared(all, &others[..place])?;
    all.push_reserved(tree);
    with_shared(all, &others[place..])
}

/// Whether the place of the tree is behind the one at `place`, since it is above the next.
fn is_behind(tree: &Knot, items: &[Knot], place: usize) -> bool
    requires rising { IsRising items.now }
    requires place { place < length items.now }
    ensures behind { IsTrue result → put_in tree.now (remove items.now place) ≡ take place items.now
        ++ put_in tree.now (drop (suc place) items.now) }
    ensures before { IsFalse result → put_in tree.now (remove items.now place)
        ≡ put_in tree.now (take place items.now) ++ drop (suc place) items.now }
{
    place + 1 < items.len() && tree.cmp(&items[place + 1]).is_gt()
}

/// The trees without the one at the place, and with one more in its own place.
fn with_moved(
    alloc: Global,
    tree: Knot,
    items: &[Knot],
    place: usize,
) -> Result<Vec<Knot>, AllocError>
    requires rising { IsRising items.now }
    requires place { place < length items.now }
    ensures { IfOk result (λ v. v.items ≡ put_in tree (remove items.now place)) }
{
    let front = &items[..place];
    let back = &items[place + 1..];
    let all = Vec::with_capacity(alloc, items.len())?;
    if is_behind(&tree, items, place) {
        return with_in_place(with_shared(all, front)?, tree, back);
    }
    with_shared(with_in_place(all, tree, front)?, back)
}

/// The trees with one more in its place.
fn with_more(alloc: Global, tree: Knot, items: &[Knot]) -> Result<Vec<Knot>, AllocError>
    requires { IsRising items.now }
    ensures { IfOk result (λ v. v.items ≡ put_in tree items.now) }
{
    let all = Vec::with_capacity(alloc, items.len() + 1)?;
    with_in_place(all, tree, items)
}

/// The trees without the one at the place.
fn without(alloc: Global, items: &[Knot], place: usize) -> Result<Vec<Knot>, AllocError>
    requires { place < length items.now }
    ensures { IfOk result (λ v. v.items ≡ remove items.now place) }
{
    let all = Vec::with_capacity(alloc, items.len())?;
    with_shared(with_shared(all, &items[..place])?, &items[place + 1..])
}

/// Whether the tree of a run that is done is left out of the bag: it is where any number of runs is
/// wanted.
fn is_left_out(wanted: Option<u8>, tree: &Knot) -> bool
    ensures left_out { IsTrue result
        → (runs : List Plain) → more_runs wanted tree.now runs ≡ runs }
    ensures put_in { IsFalse result
        → (runs : List Plain) → more_runs wanted tree.now runs ≡ put_in tree.now runs }
{
    match wanted {
        Some(_) => false,
        None => tree.is_done(),
    }
}

/// The trees without the one at the place and, unless it is left out, with one more in its own
/// place.
fn with_moved_run(
    alloc: Global,
    wanted: Option<u8>,
    tree: Knot,
    items: &[Knot],
    place: usize,
) -> Result<Vec<Knot>, AllocError>
    requires rising { IsRising items.now }
    requires place { place < length items.now }
    ensures { IfOk result (λ v. v.items ≡ more_runs wanted tree (remove items.now place)) }
{
    if is_left_out(wanted, &tree) {
        return without(alloc, items, place);
    }
    with_moved(alloc, tree, items, place)
}

/// The trees and, unless it is left out, one more in its place.
fn with_more_run(
    alloc: Global,
    wanted: Option<u8>,
    tree: Knot,
    items: &[Knot],
) -> Result<Vec<Knot>, AllocError>
    requires { IsRising items.now }
    ensures { IfOk result (λ v. v.items ≡ more_runs wanted tree items.now) }
{
    if is_left_out(wanted, &tree) {
        return share_knots(alloc, items);
    }
    with_more(alloc, tree, items)
}

/// Whether one more run may begin beside these.
pub(crate) fn has_room(wanted: Option<u8>, items: &[Knot]) -> bool
    ensures { result ≡ has_room wanted items.now }
{
    match wanted {
        Some(number) => items.len() < usize::from(number),
        None => true,
    }
}

fn put_bag(set: &mut AltSet<Bag>, items: Vec<Knot>) -> Result<(), Unbuilt>
    requires small { size_of (listed items.items) ≤ 4000000 }
    requires within { size_of (listed (map plain_bag set.old.items)) ≤ set.old.budget }
    ensures gathers { Gathers set.old.budget (bag (listed items.items) ∷ [])
        (map plain_bag set.old.items) (map plain_bag set.new.items) result }
    ensures within { size_of (listed (map plain_bag set.new.items)) ≤ set.old.budget }
    ensures budget { set.new.budget ≡ set.old.budget }
{
    put(set, Bag { items })
}

/// The bag with the tree at the place moved. A dead tree gives no bag, and where any number of runs
/// is wanted, one that is done is left out of it.
pub(crate) fn put_moved(
    alloc: Global,
    set: &mut AltSet<Bag>,
    wanted: Option<u8>,
    tree: Knot,
    items: &[Knot],
    place: usize,
) -> Result<(), Unbuilt>
    requires tree { size_of tree ≤ most_limit }
    requires items { size_of (listed items.now) ≤ most_size }
    requires rising { IsRising items.now }
    requires place { place < length items.now }
    requires within { size_of (listed (map plain_bag set.old.items)) ≤ set.old.budget }
    ensures gathers { Gathers set.old.budget (runs_with wanted tree (remove items.now place))
        (map plain_bag set.old.items) (map plain_bag set.new.items) result }
    ensures within { size_of (listed (map plain_bag set.new.items)) ≤ set.old.budget }
    ensures budget { set.new.budget ≡ set.old.budget }
{
    if tree.is_dead() {
        return Ok(());
    }
    let all = with_moved_run(alloc, wanted, tree, items, place)?;
    put_bag(set, all)
}

/// The bag with one run more, whose tree is `more`, where there is room for it. A dead tree gives
/// no bag, and where any number of runs is wanted, one that is done is left out of it.
pub(crate) fn put_more(
    alloc: Global,
    set: &mut AltSet<Bag>,
    wanted: Option<u8>,
    more: &Knot,
    items: &[Knot],
) -> Result<(), Unbuilt>
    requires more { size_of more.now ≤ most_limit }
    requires items { size_of (listed items.now) ≤ most_size }
    requires rising { IsRising items.now }
    requires within { size_of (listed (map plain_bag set.old.items)) ≤ set.old.budget }
    ensures gathers { Gathers set.old.budget (begun_runs wanted more.now items.now) (map plain_bag
        set.old.items) (map plain_bag set.new.items) result }
    ensures within { size_of (listed (map plain_bag set.new.items)) ≤ set.old.budget }
    ensures budget { set.new.budget ≡ set.old.budget }
{
    if more.is_dead() || !has_room(wanted, items) {
        return Ok(());
    }
    let tree = more.share()?;
    let all = with_more_run(alloc, wanted, tree, items)?;
    put_bag(set, all)
}
