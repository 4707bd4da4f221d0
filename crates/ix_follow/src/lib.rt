//! A follower of the log: its own copy of the history, made of the entries that a manager sent.
#![tactic(auto)]

mod answers;
mod follower;
pub mod laws;

pub use answers::{Fed, FollowFault};
pub use follower::Follower;
