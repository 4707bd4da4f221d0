//! The machine beside its journal.

ghost use Rattle.ix_manager.specs.inside.Saving.{FitsJournal, ConfirmsOver};
ghost use Rattle.ix_outside.specs.Crashes.{stretch_of};

use crate::Stop;
use crate::machine::Machine;
use crate::refusals::{Refusal, refused};
use ix_lease::Take;
use ix_outside::Site;
use ix_proto::Reply;
use ix_store::Store;
use ix_values::Ticket;

/// The machine, and the journal of its history.
#[derive(Drop)]
pub(crate) struct Journaled {
    pub(crate) machine: Machine,
    pub(crate) store: Store,
}

impl Journaled {
    /// Answers that the action of the ticket was done: where its reservation is open, the ticket
    /// and the action are appended to the journal, and then to the history. Where the disk fails,
    /// the history and the reservation stay. Takes no memory.
    pub(crate) fn confirm<S: Site>(&mut self, ticket: Ticket, site: &mut S) -> Result<Reply, Stop>
        requires fits { FitsJournal self.old (S.state site.old) (S.crashes site.old) }
        ensures { ConfirmsOver ticket result self.old self.new
            (stretch_of S.state S.crashes site.old site.new) }
    {
        let action = match self.machine.reserved(ticket) {
            Take::Taken(action) => action,
            Take::Expired => return Ok(refused(Refusal::Expired)),
            Take::NoSuch => return Ok(refused(Refusal::NoSuchTicket)),
        };
        match self.store.append(site, ticket, &action) {
            Ok(()) => Ok(self.machine.commit(ticket)),
            Err(_) => Err(Stop::Disk),
        }
    }
}
