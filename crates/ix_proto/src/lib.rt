//! Requests and replies: their texts, read and written.
#![tactic(auto)]

pub mod laws;
mod parts;
mod reply;
mod reply_read;
mod request;
mod request_fault;
mod request_write;

pub use reply::{Outcome, Reply};
pub use request::Request;
pub use request_fault::RequestFault;
