//! Sets of alternatives: lists without repeats, kept in order and within a budget of weight.
#![tactic(auto)]

mod alt_set;
mod weight;

pub use alt_set::{AltFault, AltSet};
pub use weight::Weight;
