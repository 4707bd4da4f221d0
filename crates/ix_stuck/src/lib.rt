//! Whether some moves can lead to a word that no moves complete.
#![tactic(auto)]

mod answer;
mod explore;
mod finish;
mod gone;
mod graph;
mod marks;
mod matching;
mod rules;
mod whole;
mod word;

pub use answer::{Answer, Limits};
pub use whole::stuck;
