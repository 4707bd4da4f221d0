//! The tree of the empty word, and the step from the tree of a word to that of the word with one
//! more action.
#![tactic(auto)]

mod advance;
mod bags;
mod beginning;
mod bodies;
mod calls;
mod coupling;
mod entries;
mod fault;
mod first;
mod leaves;
mod maps;
mod nodes;
mod one_step;
mod pairs;
mod parallel;
mod quantifiers;
mod sequences;
mod sets;

pub use calls::{initial, step};
pub use fault::BuildFault;
pub use leaves::LeafTrees;
