//! Names, values, actions and tickets: texts of ASCII in types of fixed size.
#![tactic(auto)]

mod actions;
mod bytes;
mod faults;
mod names;
mod reading;
mod tickets;
mod values;
mod writing;

pub use actions::Action;
pub use faults::ActionFault;
pub use names::Name;
pub use reading::action_texts_have_one_fault;
pub use tickets::{Ticket, texts_tell_tickets_apart};
pub use values::Value;
pub use writing::texts_tell_actions_apart;
