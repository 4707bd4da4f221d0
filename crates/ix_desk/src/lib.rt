//! What is told to the author of an expression, as lines.
//!
//! `bench/commands` has its rows.
#![tactic(auto)]

mod bound;
mod lint;
mod menu;
mod stuck;
mod why;
mod write;

pub use bound::bound_lines;
pub use lint::lint_lines;
pub use menu::menu_lines;
pub use stuck::stuck_lines;
pub use why::why_lines;
