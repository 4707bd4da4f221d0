//! Events from a file.
//!
//! A script is a text with a line for each event: its moment, its connection and its text.
//! `Script::read` checks the whole of it, and `ScriptSite` gives the events one after the other, as
//! a site whose sends go to a sink and whose disk is that of another site.
#![tactic(auto)]

mod cursor;
pub mod laws;
mod line;
mod put;
mod script;
mod site;

pub use script::{Script, ScriptFault};
pub use site::ScriptSite;
