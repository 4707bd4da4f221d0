//! A word without the stretches between two moments at which the trees were equal. Nothing is
//! claimed of it: it is tested.

ghost use Rattle.ix_renew.specs.inside.Walking.{CanWalk};

use crate::rules::{Rules, next_tree};
use ix_tree::Tree;
use ix_values::Action;
use std::alloc::{AllocError, Global};
use std::collections::BTreeMap;

/// The most trees that are kept to be met again. When there are so many, all are forgotten.
const MOST_KNOWN: usize = 1_024;

/// The largest Size of a tree that is kept.
const LARGEST_KNOWN: usize = 1_024;

/// A moment of the word without stretches: how many actions it has there, and the place of the last
/// of them in the whole word.
#[derive(Clone, Copy, PartialEq, Eq)]
struct Moment {
    count: usize,
    last: Option<usize>,
}

/// The word without the stretches between moments at which the trees were equal, as far as these
/// are met again.
pub(crate) fn without_returns(rules: Rules<'_>, word: &[Action]) -> Result<Vec<Action>, AllocError>
    requires { CanWalk rules }
{
    let mut known = BTreeMap::new(rules.alloc);
    let mut kept = Vec::new(rules.alloc);
    let mut tree = rules.first.copy(rules.alloc)?;
    meet(rules.alloc, &mut known, &mut kept, &tree)?;
    for (index, action) in word.iter().enumerate() {
        let Some(next) = next_tree(rules, &tree, action)? else {
            break;
        };
        kept.push(index)?;
        if next.size() <= LARGEST_KNOWN {
            meet(rules.alloc, &mut known, &mut kept, &next)?;
        }
        tree = next;
    }
    picked(rules.alloc, word, &kept)
}

/// Goes back to the moment of this tree, where it is known and wasn't cut out itself, and else
/// keeps the tree.
fn meet(
    alloc: Global,
    known: &mut BTreeMap<Tree, Moment>,
    kept: &mut Vec<usize>,
    tree: &Tree,
) -> Result<(), AllocError> {
    if let Some(moment) = known.get(tree) {
        let count = moment.count;
        if count <= kept.len() && moment_at(kept, count) == *moment {
            kept.truncate(count);
            return Ok(());
        }
    }
    if known.len() >= MOST_KNOWN {
        *known = BTreeMap::new(alloc);
    }
    known.insert(tree.copy(alloc)?, moment_at(kept, kept.len()))?;
    Ok(())
}

/// The moment behind so many of the kept actions.
fn moment_at(kept: &[usize], count: usize) -> Moment {
    let last = match count.checked_sub(1) {
        Some(place) => kept.get(place).copied(),
        None => None,
    };
    Moment { count, last }
}

/// The actions of the word at these places.
fn picked(alloc: Global, word: &[Action], places: &[usize]) -> Result<Vec<Action>, AllocError> {
    let mut actions = Vec::with_capacity(alloc, places.len())?;
    for place in places {
        if let Some(action) = word.get(*place) {
            actions.push(*action)?;
        }
    }
    Ok(actions)
}
