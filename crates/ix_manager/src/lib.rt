//! The manager: the protocol machine over the connections of a site.
//!
//! Clients ask before an action and confirm it afterwards. The manager takes the events of a site
//! one by one, cuts each connection's bytes into lines, handles each line whole, and sends its
//! replies on the same connection. A confirmed action is in the journal before its reply is sent.
#![tactic(auto)]

mod answering;
mod asking;
mod faults;
mod journaled;
pub mod laws;
mod machine;
mod manager;
mod refusals;
mod reserving;
mod sending;
mod watching;

pub use faults::{Go, StartFault, Stop};
pub use manager::Manager;
