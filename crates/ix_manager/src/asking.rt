//! Answers that change nothing.

ghost use Rattle.std.specs.Prelude.{◌≡◌, ◌↔◌, ◌+◌, ◌^◌, ◌≤◌, IsTrue, position};
ghost use Rattle.ix_engine.specs.Limits.{most_actions};
ghost use Rattle.ix_proto.specs.Requests as request;
ghost use Rattle.ix_manager.specs.Machine.{IsUngranted, ahead_of, count};
ghost use Rattle.ix_manager.specs.inside.Does.{Does};
ghost use Rattle.ix_manager.specs.inside.Ready.{has_ticket};

use crate::machine::Machine;
use crate::refusals::{Refusal, refused};
use ix_proto::{Outcome, Reply};
use ix_values::{Action, Ticket};

impl Machine {
    /// Whether the history extended by the action is partial.
    pub(crate) fn may(&self, action: &Action) -> Reply
        ensures { Does self.now (request.may action.now) result self.now }
    {
        Reply::May(self.engine.may(action))
    }

    pub(crate) fn status(&self) -> Reply
        ensures { Does self.now request.status result self.now }
    {
        Reply::Status {
            complete: self.engine.is_complete(),
            length: self.count(),
            nodes: self.engine.nodes() as u64,
        }
    }

    /// The action of this number in the history, counted from 1.
    pub(crate) fn log(&self, number: u64) -> Reply
        ensures { Does self.now (request.log number) result self.now }
    {
        if number == 0 {
            return refused(Refusal::NoSuchEntry);
        }
        if number <= self.renewed.actions {
            return refused(Refusal::EntryLeftOut);
        }
        let index = number - self.ahead() - 1;
        match self.engine.history().get(index as usize) {
            Some(action) => Reply::Entry(number, *action),
            None => refused(Refusal::NoSuchEntry),
        }
    }

    /// What became of a ticket. Takes no memory.
    pub(crate) fn outcome(&self, ticket: &Ticket) -> Reply
        ensures { Does self.now (request.outcome ticket.now) result self.now }
    {
        if let Some(index) = place_of(&self.tickets, ticket) {
            return Reply::Outcome(Outcome::Confirmed(self.ahead() + index as u64 + 1));
        }
        if self.slot.is_open_with(self.moment, ticket) {
            return Reply::Outcome(Outcome::Waiting);
        }
        if is_ungranted(self.boot, self.number, ticket) {
            return refused(Refusal::NoSuchTicket);
        }
        if ticket.boot <= self.renewed.boots {
            return refused(Refusal::TicketLeftOut);
        }
        Reply::Outcome(Outcome::Never)
    }

    /// How many actions were confirmed, with those that the carried ones stand for.
    pub(crate) fn count(&self) -> u64
        ensures value { result ≡ count self.now.state }
        ensures fits { result ≤ 2 ^ 63 + most_actions }
    {
        self.ahead() + self.engine.history().len() as u64
    }

    /// How many more actions the carried ones stand for than they are.
    fn ahead(&self) -> u64
        ensures value { result ≡ ahead_of self.now.state.renewed }
        ensures fits { result ≤ self.now.state.renewed.actions }
        ensures most { result ≤ 2 ^ 63 }
    {
        self.renewed.actions - self.renewed.carried
    }
}

fn place_of(tickets: &[Option<Ticket>], ticket: &Ticket) -> Option<usize>
    ensures { result ≡ position (has_ticket ticket.now) tickets.now }
{
    tickets.iter().position(|kept| is_kept(kept, ticket))
}

fn is_kept(kept: &Option<Ticket>, ticket: &Ticket) -> bool
    ensures { result ≡ has_ticket ticket.now kept.now }
{
    match kept {
        Some(kept) => kept.boot == ticket.boot && kept.seq == ticket.seq,
        None => false,
    }
}

/// Whether no ask was granted the ticket by this boot, with this next number in it.
fn is_ungranted(boot: u64, number: u64, ticket: &Ticket) -> bool
    ensures { IsTrue result ↔ IsUngranted boot number ticket.now }
{
    ticket.boot == 0
        || ticket.seq == 0
        || boot < ticket.boot
        || ticket.boot == boot && number <= ticket.seq
}
