//! What may come next: the actions that are tried, and the menu of those that may come.
#![tactic(auto)]

mod atoms;
mod candidate;
mod chosen;
mod fill;
mod filling;
mod fresh;
mod given;
pub mod laws;
mod list;
mod menu;
mod term;
mod trial;
mod values;

pub use candidate::Candidate;
pub use given::{Given, read_given};
pub use list::{LineFault, VALUE_LIMIT, are_given, given_values, read_values};
pub use menu::{MenuFault, moves, next};
pub use term::Term;
