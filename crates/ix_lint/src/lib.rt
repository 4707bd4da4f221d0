//! What looks wrong in an expression's form.
#![tactic(auto)]

mod above;
mod apart;
mod counts;
mod finding;
mod keeps;
pub mod laws;
mod names;
mod never;
mod owners;
mod places;
mod terms;
mod values;
mod walk;
mod whole;

pub use finding::{Finding, FindingKind};
pub use whole::lint;
