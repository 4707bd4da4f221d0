//! The journal on a site: it is opened once, and then a boot, and each action with its ticket, is
//! appended to it.
//!
//! Whatever fails, and whenever the site stops, what is left can be opened again. A file that isn't
//! a journal of the expression that is handed in stays as it was. An action is kept from the moment
//! on at which its append answers Ok, and is there whole or not at all before that.
//!
//! Only this crate names both the bytes of a journal and the calls of a disk.
#![tactic(auto)]

mod begin;
mod fault;
mod find;
mod history;
mod judge;
mod making;
mod read;
mod records;
mod store;
mod write;

pub use fault::OpenFault;
pub use history::History;
pub use making::{RenewFault, renew};
pub use store::Store;
