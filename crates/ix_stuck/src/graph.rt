//! States, the moves between them, and why a search ends without all of them.

ghost use Rattle.std.specs.Prelude.{◌≡◌};
ghost use Rattle.std.specs.Bool.{OnTrue};
ghost use Rattle.ix_stuck.specs.declared.graph.Halt.TheVariants.{Memory};
ghost use Rattle.ix_stuck.specs.inside.Ruled.{HasTreeAt};

use ix_tree::Tree;
use std::alloc::{AllocError, AllocFailed};

/// A state: the tree of a partial word over the moves.
#[derive(Drop)]
pub(crate) struct State {
    /// The tree.
    pub(crate) tree: Tree,
    /// How many moves lead to it.
    pub(crate) depth: usize,
    /// The place of the state from which it was found.
    pub(crate) from: usize,
    /// The number of the move by which it was found.
    pub(crate) by: usize,
}

/// A move that may come.
#[derive(Clone, Copy)]
pub(crate) struct Edge {
    /// The place of the state before it.
    pub(crate) from: usize,
    /// The number of the move.
    pub(crate) by: usize,
    /// The place of the state behind it.
    pub(crate) to: usize,
}

/// States in the order in which they were found, and the moves between them.
#[derive(Drop)]
pub(crate) struct Graph {
    pub(crate) states: Vec<State>,
    pub(crate) edges: Vec<Edge>,
}

/// Why a search ends without all states.
#[derive(Clone, Copy, Debug, PartialEq, Eq, Drop)]
pub(crate) enum Halt {
    /// Memory ran out.
    Memory,
    /// A tree is above the limit.
    Large,
    /// There are more states than may be kept.
    Many,
    /// What was found isn't what is claimed of it.
    Unconfirmed,
}

/// Whether the state at the place has this tree.
pub(crate) fn stands(states: &[State], place: usize, tree: &Tree) -> bool
    ensures { OnTrue result (HasTreeAt states.now place tree.now) }
{
    match states.get(place) {
        Some(state) => state.tree == *tree,
        None => false,
    }
}

impl From<AllocError> for Halt {
    ghost from_gives = { λ _ halt. halt ≡ Memory };

    fn from(_error: AllocError) -> Halt {
        Halt::Memory
    }
}

impl<T: Drop> From<AllocFailed<T>> for Halt {
    ghost from_gives = { λ _ halt. halt ≡ Memory };

    fn from(_error: AllocFailed<T>) -> Halt {
        Halt::Memory
    }
}
