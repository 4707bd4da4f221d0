//! The node of a sequence from what its parts became.

ghost use Rattle.std.specs.Prelude.{◌≡◌, ◌≤◌, ◌++◌, ◌∷◌, List, []};
ghost use Rattle.ix_words.specs.Canon.{when};
ghost use Rattle.ix_expr.specs.inside.FormOf.{form_of};
ghost use Rattle.ix_tree.specs.Plain.{Plain, listed, seq};
ghost use Rattle.ix_tree.specs.Size.{size_of};
ghost use Rattle.ix_can.specs.Nodes.{set_of, unless_done};
ghost use Rattle.ix_can.specs.TreeOf.{is_final};
ghost use Rattle.ix_step.specs.inside.Initial.{initial_tree};
ghost use Rattle.ix_step.specs.inside.Limits.{most_size};
ghost use Rattle.ix_step.specs.inside.Makes.{Makes, put_all};
ghost use Rattle.ix_step.specs.inside.Pruned.{pruned};

use crate::fault::Unbuilt;
use crate::nodes::{sized_if_live, unless_done};
use crate::one_step::Step;
use crate::sets::put_first;
use ix_alts::AltSet;
use ix_can::completes;
use ix_expr::Expr;
use ix_tree::{Knot, Node};

/// The node of `y - z`: `first` is the state of y, `rest` has the open alternatives for z that have
/// moved, and `ended` says whether one of them is done. Where the first part is final, z may begin
/// beside them.
pub(crate) fn sequence_of(
    step: Step,
    y: &Expr,
    z: &Expr,
    first: Knot,
    mut rest: AltSet<Knot>,
    ended: bool,
) -> Result<Knot, Unbuilt>
    requires first { size_of first ≤ step.limit }
    requires second { size_of (initial_tree (form_of z.now)) ≤ most_size }
    requires budget { rest.budget ≡ step.limit }
    requires within { size_of (listed rest.items) ≤ step.limit }
    ensures { (moves : List Plain) → rest.items ≡ put_all moves []
        → Makes step.entry.limit
        (pruned (seq (unless_done first) ended
        (set_of (moves
        ++ when (is_final (form_of y.now) first) (initial_tree (form_of z.now) ∷ [])))))
        result }
{
    put_first(step, &mut rest, completes(y, &first), z)?;
    let left = unless_done(step, first)?;
    let size = 1 + left.size() + rest.total();
    sized_if_live(step, Node::Seq(left, ended, rest.into_items()), size)
}
