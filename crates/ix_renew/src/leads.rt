//! The test that each candidate passes.

ghost use Rattle.std.specs.Prelude.{◌↔◌, IfOk, IsTrue};
ghost use Rattle.ix_renew.specs.inside.Walking.{CanWalk, IsCarried};

use crate::rules::{Rules, next_tree};
use ix_values::Action;
use std::alloc::AllocError;

/// Whether the word may be carried in place of the history: it has no more actions, each of them is
/// allowed behind those in front of it, and its tree is the history's.
pub(crate) fn leads(rules: Rules<'_>, word: &[Action]) -> Result<bool, AllocError>
    requires { CanWalk rules }
    ensures { IfOk result (λ answer. IsTrue answer ↔ IsCarried rules.entry word.now) }
{
    if word.len() > rules.history.len() {
        return Ok(false);
    }
    let mut tree = rules.first.copy(rules.alloc)?;
    for action in word {
        match next_tree(rules, &tree, action)? {
            Some(next) => tree = next,
            None => return Ok(false),
        }
    }
    Ok(tree == *rules.last)
}
