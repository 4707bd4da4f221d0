//! The moments since which values have entries, and the values that an expression fixes. Nothing is
//! claimed of the answers: what they lead to is tested.

ghost use Rattle.ix_renew.specs.inside.Walking.{CanWalk};

use crate::rules::{Rules, next_tree};
use crate::values::{Moments, entered, is_held};
use ix_expr::{Arg, Atom, Expr};
use ix_tree::Tree;
use ix_values::Action;
use std::alloc::{AllocError, Global};

/// For each action of the history so many nodes are looked at in the search for values.
const LOOKS: usize = 2_000;

/// Of each value that has an entry in the history's tree, how many of the first actions of the
/// history come before the moment since which it has had one at every moment. Where that is not
/// known it is 0.
pub(crate) fn held_since(rules: Rules<'_>) -> Result<Moments, AllocError>
    requires { CanWalk rules }
{
    let mut since = entered(rules.alloc, rules.last)?;
    let mut looks = rules.history.len().saturating_mul(LOOKS);
    let mut tree = rules.first.copy(rules.alloc)?;
    for (index, action) in rules.history.iter().enumerate() {
        let Some(next) = next_tree(rules, &tree, action)? else {
            break;
        };
        note(rules.alloc, &mut since, &mut looks, index, action, &next)?;
        tree = next;
    }
    Ok(since)
}

/// Notes which of the action's values have no entry in the tree behind it. The action is behind so
/// many others.
fn note(
    alloc: Global,
    since: &mut Moments,
    looks: &mut usize,
    index: usize,
    action: &Action,
    tree: &Tree,
) -> Result<(), AllocError> {
    for value in action.values() {
        if since.contains_key(value) && !is_held(alloc, tree, value, looks)? {
            since.insert(*value, index.saturating_add(1))?;
        }
    }
    Ok(())
}

/// Puts the values that the expression fixes among these, each with the number 0.
pub(crate) fn add_fixed(since: &mut Moments, expr: &Expr) -> Result<(), AllocError> {
    match expr {
        Expr::Atom(atom) => add_arguments(since, atom),
        Expr::Opt(y)
        | Expr::Star(y)
        | Expr::ParStar(y)
        | Expr::Any(_, y)
        | Expr::Every(_, y)
        | Expr::Sync(_, y)
        | Expr::All(_, y)
        | Expr::Times(_, y) => add_fixed(since, y),
        Expr::Seq(y, z) | Expr::Par(y, z) | Expr::Or(y, z) | Expr::And(y, z) | Expr::Couple(y, z) =>
            {
                add_fixed(since, y)?;
                add_fixed(since, z)
            }
    }
}

fn add_arguments(since: &mut Moments, atom: &Atom) -> Result<(), AllocError> {
    for argument in atom.args() {
        if let Arg::Fixed(value) = argument {
            since.insert(*value, 0)?;
        }
    }
    Ok(())
}
