//! The word to a state.

ghost use Rattle.std.specs.Prelude.{◌≡◌, ◌≤◌, IfOk, IfErr};
ghost use Rattle.ix_stuck.specs.inside.Marks.{LeadsTo};
ghost use Rattle.ix_stuck.specs.inside.Ruled.{CanSearch, Led, Stops, form};

use crate::graph::{Halt, State};
use crate::rules::{Rules, next_tree};
use ix_tree::Tree;
use ix_values::Action;
use std::alloc::{AllocError, Global};

/// A word, and the tree of it.
#[derive(Drop)]
pub(crate) struct Told {
    pub(crate) word: Vec<Action>,
    pub(crate) tree: Tree,
}

/// The numbers of the moves by which the state at the place was found, the first move first.
/// Nothing is claimed of them.
pub(crate) fn path_to(
    alloc: Global,
    states: &[State],
    place: usize,
) -> Result<Vec<usize>, AllocError> {
    let mut path = Vec::new(alloc);
    let mut at = place;
    for _ in 0..states.len() {
        match states.get(at) {
            Some(state) if state.depth > 0 => {
                path.push(state.by)?;
                at = state.from;
            }
            _ => break,
        }
    }
    path.reverse();
    Ok(path)
}

/// The word of the moves of these numbers, and its tree.
pub(crate) fn follow(rules: Rules<'_>, path: &[usize]) -> Result<Told, Halt>
    requires { CanSearch rules }
    ensures leads { IfOk result (λ told. LeadsTo (form rules.entry) rules.entry.moves.now
        rules.entry.start.now told.word.items told.tree) }
    ensures led { IfOk result (λ told. Led rules.entry told.tree) }
    ensures stops { IfErr result (λ halt. Stops rules.entry halt) }
{
    let mut told = begin(rules)?;
    for by in path {
        told = go_on(rules, told, *by)?;
    }
    Ok(told)
}

/// The empty word, and its tree.
fn begin(rules: Rules<'_>) -> Result<Told, Halt>
    requires { CanSearch rules }
    ensures leads { IfOk result (λ told. LeadsTo (form rules.entry) rules.entry.moves.now
        rules.entry.start.now told.word.items told.tree) }
    ensures led { IfOk result (λ told. Led rules.entry told.tree) }
    ensures stops { IfErr result (λ halt. Stops rules.entry halt) }
{
    let tree = rules.start.copy(rules.alloc)?;
    Ok(Told {
        word: Vec::new(rules.alloc),
        tree,
    })
}

/// The word with the move of this number behind it.
fn go_on(rules: Rules<'_>, told: Told, by: usize) -> Result<Told, Halt>
    requires ready { CanSearch rules }
    requires leads { LeadsTo (form rules) rules.moves.now rules.start.now told.word.items
        told.tree }
    requires led { Led rules told.tree }
    ensures leads { IfOk result (λ told. LeadsTo (form rules.entry) rules.entry.moves.now
        rules.entry.start.now told.word.items told.tree) }
    ensures led { IfOk result (λ told. Led rules.entry told.tree) }
    ensures stops { IfErr result (λ halt. Stops rules.entry halt) }
{
    let Told { mut word, tree } = told;
    let Some(action) = rules.moves.get(by) else {
        return Err(Halt::Unconfirmed);
    };
    match next_tree(rules, &tree, action) {
        Ok(Some(next)) => {
            word.push(*action)?;
            Ok(Told { word, tree: next })
        }
        Ok(None) => Err(Halt::Unconfirmed),
        Err(halt) => Err(halt),
    }
}
