//! Devices in memory: files, a sink and a site whose calls fail exactly where they are told to.
//!
//! The calls of each object are numbered from 0 in the order in which they are made; a failing call
//! counts too. An object takes all its memory when it is made, so no later call wants any but the
//! bytes that `load` gives away.
#![tactic(auto)]

mod calls;
mod events;
mod files;
mod image;
pub mod laws;
mod past;
mod plan;
mod room;
mod sent;
mod sink;
mod site;

pub use files::MemoryFiles;
pub use sink::MemorySink;
pub use site::MemorySite;

/// The most numbers that can be added to those of a site's calls that fail.
pub const MOST_ADDED: usize = 64;
