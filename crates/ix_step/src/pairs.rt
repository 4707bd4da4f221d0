//! Pairs put into sets of alternatives.

ghost use Rattle.std.specs.Prelude.{◌≡◌, ◌≤◌, ◌∷◌, [], map};
ghost use Rattle.ix_words.specs.Canon.{when};
ghost use Rattle.ix_tree.specs.Plain.{pair, listed};
ghost use Rattle.ix_tree.specs.PlainOf.{plain_pair};
ghost use Rattle.ix_tree.specs.Size.{size_of};
ghost use Rattle.ix_can.specs.Nodes.{is_live};
ghost use Rattle.ix_step.specs.inside.Limits.{most_size, most_limit};
ghost use Rattle.ix_step.specs.inside.Makes.{Gathers};
ghost use Rattle.ix_step.specs.inside.ParallelMoves.{pairs_moved};

use crate::fault::Unbuilt;
use crate::sets::put;
use ix_alts::AltSet;
use ix_tree::{Knot, Pair};

/// The pair gives two: one with its left side moved, and one with its right side moved.
pub(crate) fn put_pairs(
    set: &mut AltSet<Pair>,
    pair: &Pair,
    left: Knot,
    right: Knot,
) -> Result<(), Unbuilt>
    requires small { size_of (plain_pair pair.now) ≤ most_size }
    requires left { size_of left ≤ most_limit }
    requires right { size_of right ≤ most_limit }
    requires within { size_of (listed (map plain_pair set.old.items)) ≤ set.old.budget }
    ensures gathers { Gathers set.old.budget (pairs_moved pair.now.first pair.now.second left right)
        (map plain_pair set.old.items) (map plain_pair set.new.items) result }
    ensures within { size_of (listed (map plain_pair set.new.items)) ≤ set.old.budget }
    ensures budget { set.new.budget ≡ set.old.budget }
{
    put_left(set, left, &pair.second)?;
    put_right(set, &pair.first, right)
}

fn put_left(set: &mut AltSet<Pair>, first: Knot, right: &Knot) -> Result<(), Unbuilt>
    requires first { size_of first ≤ most_limit }
    requires right { size_of right.now ≤ most_size }
    requires within { size_of (listed (map plain_pair set.old.items)) ≤ set.old.budget }
    ensures gathers { Gathers set.old.budget (when (is_live first) (pair first right.now ∷ []))
        (map plain_pair set.old.items) (map plain_pair set.new.items) result }
    ensures within { size_of (listed (map plain_pair set.new.items)) ≤ set.old.budget }
    ensures budget { set.new.budget ≡ set.old.budget }
{
    if first.is_dead() {
        return Ok(());
    }
    let second = right.share()?;
    put(set, Pair { first, second })
}

fn put_right(set: &mut AltSet<Pair>, left: &Knot, second: Knot) -> Result<(), Unbuilt>
    requires left { size_of left.now ≤ most_size }
    requires second { size_of second ≤ most_limit }
    requires within { size_of (listed (map plain_pair set.old.items)) ≤ set.old.budget }
    ensures gathers { Gathers set.old.budget (when (is_live second) (pair left.now second ∷ []))
        (map plain_pair set.old.items) (map plain_pair set.new.items) result }
    ensures within { size_of (listed (map plain_pair set.new.items)) ≤ set.old.budget }
    ensures budget { set.new.budget ≡ set.old.budget }
{
    if second.is_dead() {
        return Ok(());
    }
    let first = left.share()?;
    put(set, Pair { first, second })
}
