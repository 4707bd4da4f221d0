//! State trees: what they are, their Size and their order.
#![tactic(auto)]

mod entries;
pub mod laws;
mod node;
mod order;
mod pieces;
mod share;
mod size;
mod tree;
mod weight;

pub use entries::{Entries, EntriesLeft};
pub use node::{Bag, Knot, Map, Node, Pair};
pub use share::{share_knots, with_shared};
pub use tree::Tree;
