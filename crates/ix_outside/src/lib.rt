//! The outside of the program as traits: files, a sink of bytes, and a site with its wire and its
//! disk.
//!
//! Each trait has one ghost member, `state`, which is what a proof may know of an object: what it
//! tells of its contents, if it tells them, its counts of faults, and the other objects that it was
//! lent, which every call keeps. A fault is answered only where a count rose in that call. A count
//! never falls, and one at 2^64 - 1 counts as risen.
#![tactic(auto)]

mod event;
mod faults;
mod files;
mod history;
mod sink;
mod site;

pub use event::{Event, EventKind};
pub use faults::{DiskFailed, Failed, Gone, LoadFault, WireFailed};
pub use files::Files;
pub use history::History;
pub use sink::Sink;
pub use site::Site;
