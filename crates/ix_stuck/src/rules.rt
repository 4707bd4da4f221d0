//! What states are built by.

ghost use Rattle.ix_stuck.specs.inside.Ruled.{CanSearch, Led, IsNextTree};

use crate::answer::Limits;
use crate::graph::Halt;
use ix_expr::{Env, Expr};
use ix_step::{BuildFault, LeafTrees};
use ix_tree::Tree;
use ix_values::Action;
use std::alloc::Global;

/// What states are built by.
#[derive(Clone, Copy)]
pub(crate) struct Rules<'a> {
    pub(crate) alloc: Global,
    pub(crate) expr: &'a Expr,
    /// The environment with no parameter in it.
    pub(crate) env: &'a Env,
    /// The trees without parts, which all steps share.
    pub(crate) leaves: &'a LeafTrees,
    pub(crate) moves: &'a [Action],
    pub(crate) limits: Limits,
    /// The tree of the first state.
    pub(crate) start: &'a Tree,
}

/// The tree of a state after an action, or none where the action may not come.
pub(crate) fn next_tree(
    rules: Rules<'_>,
    tree: &Tree,
    action: &Action,
) -> Result<Option<Tree>, Halt>
    requires ready { CanSearch rules }
    requires led { Led rules tree.now }
    ensures { IsNextTree rules.entry tree.now action.now result }
{
    let limit = rules.limits.nodes;
    match rules
        .leaves
        .step(tree, rules.expr, rules.env, action, limit)
    {
        Ok(next) if next.is_dead() => Ok(None),
        Ok(next) => Ok(Some(next)),
        Err(BuildFault::Over { .. }) => Err(Halt::Large),
        Err(BuildFault::Memory) => Err(Halt::Memory),
    }
}
