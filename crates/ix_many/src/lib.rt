//! A site whose wire serves up to 64 connections of a Unix socket at once.
//!
//! It tells nothing of its contents, as the site of `ix_real` that serves one after the other. What
//! is proved beside the trait: a number is one stream's from its first event to its Closed; no byte
//! is lost, sent twice or out of order between what waits for a peer and its stream; and whoever
//! wants a turn has it behind at most 63 of others. Of epoll nothing is proved: what isn't reported
//! is silence.
#![tactic(auto)]

mod backlog;
mod clock;
mod connection;
mod connections;
mod hold;
mod laws;
mod passing;
mod site;
mod turns;
mod wire;

pub use laws::{nobody_is_passed_over, pieces_fit};
pub use site::ManySite;
