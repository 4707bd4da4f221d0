//! The engine: the confirmed actions of one expression, and the one tree that tells what may come
//! next.
#![tactic(auto)]

mod engine;
mod extending;
mod faults;
mod next;

pub use engine::Engine;
pub use faults::{PrepareFault, ResumeFault};
pub use next::Next;
