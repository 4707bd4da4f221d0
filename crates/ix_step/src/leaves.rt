//! The trees that have no parts, which steps share.

ghost use Rattle.std.specs.Prelude.{◌≡◌, ◌≤◌, ◌++◌, ◌∷◌, [], true};
ghost use Rattle.ix_values.specs.PlainAction.{Word};
ghost use Rattle.ix_expr.specs.FormFaults.{Fits};
ghost use Rattle.ix_expr.specs.inside.FormOf.{form_of};
ghost use Rattle.ix_tree.specs.Plain.{dead as dead_tree, done as done_tree, start as start_tree};
ghost use Rattle.ix_tree.specs.Plain.{star, none};
ghost use Rattle.ix_tree.specs.Size.{size_of};
ghost use Rattle.ix_can.specs.Laws.{IsProper};
ghost use Rattle.ix_can.specs.inside.Moved.{moved};
ghost use Rattle.ix_can.specs.TreeOf.{tree_of};
ghost use Rattle.ix_step.specs.inside.Builds.{Builds};
ghost use Rattle.ix_step.specs.inside.Limits.{most_size};

use crate::calls::{moved_within, told};
use crate::fault::BuildFault;
use ix_expr::{Env, Expr};
use ix_tree::{Knot, Node, Tree};
use ix_values::Action;
use std::alloc::{AllocError, Global};

/// The dead tree, the one that is done, that of an atom before its action, and that of an iteration
/// before its first run. They have no parts, so one of each serves all steps of an engine, and no
/// step makes its own.
#[derive(Drop)]
pub struct LeafTrees {
    alloc: Global,
    pub(crate) dead: Knot,
    pub(crate) done: Knot,
    pub(crate) start: Knot,
    pub(crate) iteration: Knot,
    ghost ends: { dead ≡ dead_tree },
    ghost completes: { done ≡ done_tree },
    ghost begins: { start ≡ start_tree },
    ghost repeats: { iteration ≡ star true none },
}

impl LeafTrees {
    /// The four trees, made once.
    pub fn new(alloc: Global) -> Result<LeafTrees, AllocError> {
        Ok(LeafTrees {
            alloc,
            dead: Knot::new(alloc, Node::Dead)?,
            done: Knot::new(alloc, Node::Done)?,
            start: Knot::new(alloc, Node::Start)?,
            iteration: Knot::new(alloc, Node::Star(true, Vec::new(alloc)))?,
        })
    }

    /// The tree of the word with one more action, as `step` gives it.
    pub fn step(
        &self,
        tree: &Tree,
        expr: &Expr,
        env: &Env,
        action: &Action,
        limit: usize,
    ) -> Result<Tree, BuildFault>
        requires fits { Fits (form_of expr.now) env.now }
        requires proper { IsProper (form_of expr.now) tree.now }
        requires limit { limit ≤ most_size }
        requires size { size_of tree.now ≤ most_size }
        ensures by_tree { Builds limit (moved (form_of expr.now) env.now tree.now action.now)
            result }
        ensures by_word { (w : Word) → tree.now ≡ tree_of (form_of expr.now) env.now w
            → Builds limit (tree_of (form_of expr.now) env.now (w ++ action.now ∷ [])) result }
    {
        match moved_within(self, tree.knot(), expr, env, action, limit) {
            Ok(knot) => Ok(Tree::of(knot)),
            Err(unbuilt) => Err(told(unbuilt, limit)),
        }
    }

    /// Where what a step builds is allocated.
    pub(crate) fn alloc(&self) -> Global {
        self.alloc
    }
}
