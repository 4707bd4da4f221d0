//! Expressions, environments and what they mean.
#![tactic(auto)]

mod alphabet;
mod arg;
mod atom;
mod empty_word;
mod env;
mod expr;
mod expression;
pub mod fitting;
pub mod laws;
mod matching;
mod names;
mod numbers;
mod scope;
mod seen;
mod walk;

pub use alphabet::contains;
pub use arg::Arg;
pub use atom::{Atom, are_alike};
pub use empty_word::accepts_empty;
pub use env::Env;
pub use expr::Expr;
pub use expression::{Expression, FormFault};
pub use matching::matches;
pub use names::{mentions, some_names};
pub use numbers::has_numbers;
pub use seen::sees;
