//! A site whose file may be kept by etcd, under a prefix of keys, so that a manager on another
//! machine can take it over at any moment, and none that was taken over replies or writes.
//!
//! Of etcd nothing is told, as of no device: what its transactions are is trusted, and what follows
//! of several owners is proved in `ix_blocks`. Proved here is that every answer is read safely,
//! that each fault is counted, and that no reply goes out unless this owner was sure of the file
//! since the last event. That each request ends by the clock is code that no clause speaks of.
//!
//! What is asked, and what comes of an answer, `bench/gateway` shows of the program `ixmd`: the
//! crate has no tests of its own.
#![tactic(auto)]

mod answers;
mod endpoints;
mod exchange;
mod gateway;
mod keys;
mod owned;
mod patience;
mod site;
mod texts;

pub use gateway::Trouble;
pub use site::EtcdSite;
