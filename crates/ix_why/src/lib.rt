//! Which parts of an expression refuse an action.
#![tactic(auto)]

mod ask;
mod bindings;
mod count;
pub mod laws;
mod node;
mod owners;
mod part;
mod scope;
mod state;
mod values;
mod walk;
mod whole;

pub use bindings::Bindings;
pub use node::node_at;
pub use part::Part;
pub use whole::why;
