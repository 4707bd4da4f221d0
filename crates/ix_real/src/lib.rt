//! The real devices: files of the disk, standard output, and a Unix socket beside one file.
//!
//! Each is made from the runtime that `main` is handed, proved against its trait of `ix_outside`,
//! and tells nothing of its contents: of bytes that come from outside, and of bytes that go there,
//! no contract can speak. What is proved is that each failure is counted, that no read gives more
//! bytes than its buffer or its limit, and which events come. Each count goes up to 2^64 - 1.
//! Nothing is written to standard error.
#![tactic(auto)]

mod clock;
mod disk;
mod faults;
mod files;
mod journal;
mod sink;
mod site;
mod wire;

pub use clock::moment;
pub use disk::Disk;
pub use faults::count_fault;
pub use files::RealFiles;
pub use sink::RealSink;
pub use site::RealSite;
