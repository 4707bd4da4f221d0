//! The two calls: the tree of the empty word, and the step to the tree of a word with one more
//! action.

ghost use Rattle.std.specs.Prelude.{◌≡◌, ◌≤◌, ◌++◌, ◌∷◌, []};
ghost use Rattle.ix_values.specs.PlainAction.{Word};
ghost use Rattle.ix_expr.specs.Environment.{Environment};
ghost use Rattle.ix_expr.specs.FormFaults.{Fits};
ghost use Rattle.ix_expr.specs.inside.FormOf.{form_of};
ghost use Rattle.ix_tree.specs.Plain.{Plain};
ghost use Rattle.ix_tree.specs.Size.{size_of};
ghost use Rattle.ix_can.specs.Laws.{IsProper};
ghost use Rattle.ix_can.specs.inside.Moved.{moved};
ghost use Rattle.ix_can.specs.TreeOf.{tree_of};
ghost use Rattle.ix_step.specs.inside.Builds.{Builds, IsAbove};
ghost use Rattle.ix_step.specs.inside.Limits.{most_size};
ghost use Rattle.ix_step.specs.inside.Makes.{Makes, IsAboveLimit};
ghost use Rattle.ix_step.specs.inside.Ready.{Ready};

use crate::advance::advance;
use crate::fault::{BuildFault, Unbuilt};
use crate::first::first_tree;
use crate::leaves::LeafTrees;
use crate::nodes::bounded;
use crate::one_step::Step;
use ix_expr::{Env, Expr};
use ix_tree::{Knot, Tree};
use ix_values::Action;
use std::alloc::{AllocError, Global};

/// The tree of the empty word, if its Size is at most the limit, and else `Over`. It is the same
/// under every environment that the expression fits.
pub fn initial(alloc: Global, expr: &Expr, limit: usize) -> Result<Tree, BuildFault>
    requires fits { (e : Environment) × Fits (form_of expr.now) e }
    requires limit { limit ≤ most_size }
    ensures { Builds limit (tree_of (form_of expr.now) [] []) result }
{
    match first_within(alloc, expr, limit) {
        Ok(knot) => Ok(Tree::of(knot)),
        Err(unbuilt) => Err(told(unbuilt, limit)),
    }
}

/// The tree of the word with one more action, if its Size is at most the limit, and else `Over`.
/// `tree` is that of the word before. The tree is dead where the action may not come next.
pub fn step(
    alloc: Global,
    tree: &Tree,
    expr: &Expr,
    env: &Env,
    action: &Action,
    limit: usize,
) -> Result<Tree, BuildFault>
    requires fits { Fits (form_of expr.now) env.now }
    requires proper { IsProper (form_of expr.now) tree.now }
    requires limit { limit ≤ most_size }
    requires size { size_of tree.now ≤ most_size }
    ensures by_tree { Builds limit (moved (form_of expr.now) env.now tree.now action.now) result }
    ensures by_word { (w : Word) → tree.now ≡ tree_of (form_of expr.now) env.now w
        → Builds limit (tree_of (form_of expr.now) env.now (w ++ action.now ∷ [])) result }
{
    match LeafTrees::new(alloc) {
        Ok(leaves) => leaves.step(tree, expr, env, action, limit),
        Err(AllocError) => Err(BuildFault::Memory),
    }
}

fn first_within(alloc: Global, expr: &Expr, limit: usize) -> Result<Knot, Unbuilt>
    requires { (e : Environment) × Fits (form_of expr.now) e }
    ensures { Makes limit (tree_of (form_of expr.now) [] []) result }
{
    let leaves = LeafTrees::new(alloc)?;
    let tree = first_tree(&leaves, expr)?;
    bounded(tree, limit)
}

pub(crate) fn moved_within(
    leaves: &LeafTrees,
    tree: &Knot,
    expr: &Expr,
    env: &Env,
    action: &Action,
    limit: usize,
) -> Result<Knot, Unbuilt>
    requires ready { Ready (form_of expr.now) env.now tree.now }
    requires limit { limit ≤ most_size }
    ensures { Makes limit (moved (form_of expr.now) env.now tree.now action.now) result }
{
    let step = Step {
        action,
        env,
        alloc: leaves.alloc(),
        limit: at_least_one(limit),
        leaves,
    };
    let moved = advance(step, expr, tree)?;
    bounded(moved, limit)
}

/// Dead trees come up on the way, whose Size is 1, so a step needs a limit of at least 1. A limit
/// of 0, which no tree is within, is told by `bounded`.
fn at_least_one(limit: usize) -> usize
    requires { limit ≤ most_size }
    ensures positive { 1 ≤ result }
    ensures above { limit ≤ result }
    ensures bounded { result ≤ most_size }
{
    if limit == 0 { 1 } else { limit }
}

pub(crate) fn told(unbuilt: Unbuilt, limit: usize) -> BuildFault
    ensures { (x : Plain) → IsAboveLimit limit x unbuilt → IsAbove limit x result }
{
    match unbuilt {
        Unbuilt::Over => BuildFault::Over { limit },
        Unbuilt::Memory => BuildFault::Memory,
    }
}
