//! A file in blocks over a store of keys that several managers write to, and its laws.
#![tactic(auto)]

mod blocks;
mod claim;
mod file;
mod keys;
pub mod laws;
mod memory;
mod request;

pub use blocks::Blocks;
pub use claim::{Claim, Commit, Head, Seen};
pub use file::{BLOCK_BYTES, Block, File, MOST_CHANGED, NoRoom};
pub use keys::{Fault, Keys, Unanswered};
pub use memory::{Arrival, MemoryKeys, Step};
pub use request::Request;
