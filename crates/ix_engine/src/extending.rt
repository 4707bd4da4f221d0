//! The tree of a history with one more action.

ghost use Rattle.std.specs.Prelude.{◌≡◌, ◌≤◌, [], length};
ghost use Rattle.ix_values.specs.PlainAction.{Word};
ghost use Rattle.ix_expr.specs.FormFaults.{Fits};
ghost use Rattle.ix_expr.specs.inside.FormOf.{form_of};
ghost use Rattle.ix_tree.specs.Size.{size_of};
ghost use Rattle.ix_can.specs.Laws.{IsProper};
ghost use Rattle.ix_can.specs.TreeOf.{tree_of};
ghost use Rattle.ix_step.specs.inside.Limits.{most_size};
ghost use Rattle.ix_engine.specs.inside.Extending.{Extends};

use crate::PrepareFault;
use ix_can::can;
use ix_expr::{Env, Expr};
use ix_step::{BuildFault, LeafTrees};
use ix_tree::Tree;
use ix_values::Action;

/// The most actions of a history.
pub(crate) const MOST_ACTIONS: usize = 1_000_000;

/// What the trees of a history are built by.
#[derive(Clone, Copy)]
pub(crate) struct Rules<'a> {
    /// The expression.
    pub(crate) expr: &'a Expr,
    /// The environment with no parameter in it. It is made once, because it takes time to make.
    pub(crate) env: &'a Env,
    /// The trees without parts, which all steps share.
    pub(crate) leaves: &'a LeafTrees,
    /// The most that the Size of a tree may be.
    pub(crate) limit: usize,
}

/// The tree of a history with one more action behind it, where `tree` is that of the history, which
/// has so many actions.
pub(crate) fn extend(
    rules: Rules<'_>,
    tree: &Tree,
    actions: usize,
    action: &Action,
) -> Result<Tree, PrepareFault>
    requires empty { rules.env.now ≡ [] }
    requires fits { Fits (form_of rules.expr.now) [] }
    requires proper { IsProper (form_of rules.expr.now) tree.now }
    requires size { size_of tree.now ≤ most_size }
    requires actions { actions ≤ MOST_ACTIONS }
    requires limit { rules.limit ≤ most_size }
    ensures { (history : Word) → tree.now ≡ tree_of (form_of rules.entry.expr.now) [] history
        → actions ≡ length history
        → Extends (form_of rules.entry.expr.now) rules.entry.limit history action.now result }
{
    let Rules {
        expr,
        env,
        leaves,
        limit,
    } = rules;
    if actions == MOST_ACTIONS && can(tree, expr, env, action) {
        return Err(PrepareFault::Full);
    }
    match leaves.step(tree, expr, env, action, limit) {
        Ok(next) if next.is_dead() => Err(PrepareFault::NotPartial),
        Ok(next) => Ok(next),
        // A tree that isn't built may be dead, and then nothing else is told.
        Err(_) if !can(tree, expr, env, action) => Err(PrepareFault::NotPartial),
        Err(BuildFault::Over { limit }) => Err(PrepareFault::Over { limit }),
        Err(BuildFault::Memory) => Err(PrepareFault::Memory),
    }
}
