//! Questions of a state tree: what the tree of a word is, and what it tells.
#![tactic(auto)]

mod completion;
mod first;
pub mod laws;
mod next;
mod values;

pub use completion::{completes, is_final};
pub use first::can_first;
pub use next::{Met, can, goes_on, meets};
pub use values::{state_at, state_of};
