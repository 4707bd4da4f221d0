//! A client of the manager, with grants that must be spent.
//!
//! An action that was granted is a value of which no part of a program can let go: it is confirmed
//! or cancelled, and where the answer got lost it is settled, until it is known what became of it.
#![tactic(auto)]

mod calls;
mod ended;
mod exchange;
mod expected;
mod grants;
pub mod laws;
mod lines;
mod link;
mod manager_link;
mod run;
mod turns;

pub use calls::{ask, cancel, confirm, settle};
pub use expected::is_expected;
pub use grants::{AskFault, Cancel, Confirm, Granted, Pending, Settle};
pub use lines::keep_line;
pub use link::{Link, LinkFailed};
pub use manager_link::ManagerLink;
pub use run::client;
