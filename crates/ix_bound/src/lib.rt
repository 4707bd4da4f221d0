//! A static bound on the state: how large the trees of an expression get, before the first action.
#![tactic(auto)]

mod answer;
mod heads;
mod keys;
pub mod laws;
mod names;
mod number;
mod refused;
mod walk;
mod whole;

pub use answer::Bound;
pub use refused::{RefusedNode, refused_nodes};
pub use whole::bound;
