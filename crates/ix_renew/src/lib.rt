//! A short word in place of a long history: one whose tree is the history's, so that every later
//! action is answered behind it as behind the history; and the journal that holds it.
#![tactic(auto)]

mod candidates;
mod carrying;
mod fault;
pub mod laws;
mod leads;
mod renewing;
mod resting;
mod returns;
mod rules;
mod since;
mod values;

pub use carrying::carried;
pub use fault::RenewalFault;
pub use renewing::{Renewal, renew};
