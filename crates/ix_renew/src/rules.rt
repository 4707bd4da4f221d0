//! What the trees of words are built by.

ghost use Rattle.std.specs.Prelude.{IfOk};
ghost use Rattle.ix_renew.specs.inside.Walking.{CanWalk, IsSteppable, IsTreeBehind};

use ix_expr::{Env, Expr};
use ix_step::{BuildFault, LeafTrees};
use ix_tree::Tree;
use ix_values::Action;
use std::alloc::{AllocError, Global};

/// A history, and what the trees of words are built by.
#[derive(Clone, Copy)]
pub(crate) struct Rules<'a> {
    pub(crate) alloc: Global,
    pub(crate) expr: &'a Expr,
    /// The environment with no parameter in it.
    pub(crate) env: &'a Env,
    /// The trees without parts, which all steps share.
    pub(crate) leaves: &'a LeafTrees,
    /// The most that the Size of a tree may be.
    pub(crate) limit: usize,
    /// The tree of the empty word.
    pub(crate) first: &'a Tree,
    /// The tree of the history.
    pub(crate) last: &'a Tree,
    pub(crate) history: &'a [Action],
}

/// The tree of a word with the action behind it, where `tree` is that of the word; or none where
/// the action may not come next, or the tree is above the limit.
pub(crate) fn next_tree(
    rules: Rules<'_>,
    tree: &Tree,
    action: &Action,
) -> Result<Option<Tree>, AllocError>
    requires ready { CanWalk rules }
    requires reached { IsSteppable rules tree.now }
    ensures { IfOk result (λ next. IsTreeBehind rules.entry tree.now action.now next) }
{
    match rules
        .leaves
        .step(tree, rules.expr, rules.env, action, rules.limit)
    {
        Ok(next) if next.is_dead() => Ok(None),
        Ok(next) => Ok(Some(next)),
        Err(BuildFault::Over { .. }) => Ok(None),
        Err(BuildFault::Memory) => Err(AllocError),
    }
}
