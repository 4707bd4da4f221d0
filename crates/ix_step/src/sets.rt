//! Items put into sets of alternatives.

ghost use Rattle.std.specs.Prelude.{◌≡◌, ◌≤◌, ◌^◌, ◌∷◌, []};
ghost use Rattle.std.specs.List.{sum_by};
ghost use Rattle.ix_words.specs.Canon.{when};
ghost use Rattle.ix_expr.specs.inside.FormOf.{form_of};
ghost use Rattle.ix_tree.specs.Plain.{Plain, listed};
ghost use Rattle.ix_tree.specs.Size.{size_of};
ghost use Rattle.ix_step.specs.inside.Initial.{initial_tree};
ghost use Rattle.ix_step.specs.inside.Limits.{most_size};
ghost use Rattle.ix_step.specs.inside.Makes.{Gathers, PutsItem};
ghost use Rattle.ix_step.specs.inside.Moves.{if_open};

use crate::fault::Unbuilt;
use crate::first::first_tree;
use crate::nodes::is_ended;
use crate::one_step::Step;
use ix_alts::{AltFault, AltSet, Weight};
use ix_expr::Expr;
use ix_tree::Knot;

pub(crate) fn put<T: Ord + Weight + Drop>(set: &mut AltSet<T>, item: T) -> Result<(), Unbuilt>
    requires { T.weight item ≤ 2 ^ 32 }
    ensures put { PutsItem T.Ord.cmp T.weight set.old set.new.items item result }
    ensures within { sum_by T.weight set.new.items ≤ set.new.budget }
    ensures budget { set.new.budget ≡ set.old.budget }
{
    match set.insert(item) {
        Ok(_) => Ok(()),
        Err(AltFault::Over { .. }) => Err(Unbuilt::Over),
        Err(AltFault::Memory) => Err(Unbuilt::Memory),
    }
}

/// A tree that is dead or done is no open alternative.
pub(crate) fn put_open(set: &mut AltSet<Knot>, tree: Knot) -> Result<(), Unbuilt>
    requires within { size_of (listed set.old.items) ≤ set.old.budget }
    ensures gathers { Gathers set.old.budget (if_open tree) set.old.items set.new.items result }
    ensures within { size_of (listed set.new.items) ≤ set.old.budget }
    ensures budget { set.new.budget ≡ set.old.budget }
{
    if is_ended(&tree) {
        return Ok(());
    }
    put(set, tree)
}

/// Where it begins, the tree of the empty word is one more alternative.
pub(crate) fn put_first(
    step: Step,
    set: &mut AltSet<Knot>,
    begins: bool,
    expr: &Expr,
) -> Result<(), Unbuilt>
    requires small { size_of (initial_tree (form_of expr.now)) ≤ most_size }
    requires within { size_of (listed set.old.items) ≤ set.old.budget }
    ensures gathers { Gathers set.old.budget (when begins (initial_tree (form_of expr.now) ∷ []))
        set.old.items set.new.items result }
    ensures within { size_of (listed set.new.items) ≤ set.old.budget }
    ensures budget { set.new.budget ≡ set.old.budget }
{
    if !begins {
        return Ok(());
    }
    put(set, first_tree(step.leaves, expr)?)
}
