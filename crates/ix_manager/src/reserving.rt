//! Asks, and what becomes of a reservation.

ghost use Rattle.std.specs.Prelude.{◌≡◌, ◌≢◌, ◌-◌, ◌^◌, ◌<◌, length};
ghost use Rattle.std.specs.Prelude.{IfOk, IfErr, OnOk, vec_capacity};
ghost use Rattle.ix_engine.specs.Limits.{most_actions};
ghost use Rattle.ix_values.specs.PlainAction.{PlainAction};
ghost use Rattle.ix_engine.specs.Histories.{IsRefused};
ghost use Rattle.ix_engine.specs.inside.Engine.{Allows};
ghost use Rattle.ix_proto.specs.Requests as request;
ghost use Rattle.ix_manager.specs.inside.Ready.{IsPrepared};
ghost use Rattle.ix_proto.specs.inside.ReplyTexts.{CanBeTold};
ghost use Rattle.ix_manager.specs.inside.Does.{Does};
ghost use Rattle.ix_manager.specs.inside.Saving.{Finds, Commits};

use crate::machine::Machine;
use crate::refusals::{Refusal, refused};
use ix_engine::{Engine, Next, PrepareFault};
use ix_lease::{Slot, Take, deadline_of};
use ix_proto::Reply;
use ix_values::{Action, Ticket};
use std::alloc::Global;

impl Machine {
    /// Answers whether the action may be done. If so it is reserved for `lease` milliseconds.
    pub(crate) fn ask(&mut self, alloc: Global, action: Action, lease: u32) -> Reply
        requires { self.old.state.number < 2 ^ 64 - 1 }
        ensures { Does self.old (request.ask action lease) result self.new }
    {
        if let Some(deadline) = self.slot.open_until(self.moment) {
            return refused(Refusal::Busy { deadline });
        }
        self.slot = Slot::Free;
        self.pending = None;
        match prepare(alloc, &mut self.engine, &mut self.tickets, &action) {
            Ok(next) => {
                let ticket = Ticket {
                    boot: self.boot,
                    seq: self.number,
                };
                let deadline = deadline_of(self.moment, lease);
                self.slot = Slot::Held {
                    ticket,
                    action,
                    deadline,
                };
                self.pending = Some(next);
                self.number += 1;
                Reply::Granted(ticket)
            }
            Err(why) => refused(Refusal::from(why)),
        }
    }

    /// The action of the ticket's reservation, where it is open.
    pub(crate) fn reserved(&self, ticket: Ticket) -> Take
        ensures takes { Finds self.now ticket result }
        ensures room { (a : PlainAction) → result ≡ Take.Taken a
            → length self.now.state.history < most_actions }
    {
        let mut slot = self.slot;
        slot.take(ticket, self.moment)
    }

    /// Appends the reserved action and its ticket to the history, which ends the reservation. Takes
    /// no memory.
    pub(crate) fn commit(&mut self, ticket: Ticket) -> Reply
        requires { self.old.state.slot ≢ Slot.Free }
        ensures commits { Commits self.old ticket result self.new }
        ensures told { CanBeTold result }
    {
        match self.pending.take() {
            Some(next) => {
                self.engine.commit(next);
                let pushed = self.tickets.push(Some(ticket));
                prove!(pushed.is_ok());
                self.slot = Slot::Free;
                Reply::Confirmed(self.count())
            }
            None => unreachable!(),
        }
    }

    /// Answers that the action of the ticket won't be done: its reservation ends where it is open.
    pub(crate) fn cancel(&mut self, ticket: Ticket) -> Reply
        ensures { Does self.old (request.cancel ticket) result self.new }
    {
        match self.slot.take(ticket, self.moment) {
            Take::Taken(_) => {
                self.pending = None;
                Reply::Cancelled(ticket)
            }
            Take::Expired => refused(Refusal::Expired),
            Take::NoSuch => refused(Refusal::NoSuchTicket),
        }
    }
}

/// Prepares the action, and takes the memory to commit it with its ticket, so that a confirm needs
/// none.
fn prepare(
    alloc: Global,
    engine: &mut Engine,
    tickets: &mut Vec<Option<Ticket>>,
    action: &Action,
) -> Result<Next, PrepareFault>
    ensures prepared { IfOk result (λ next. IsPrepared engine.new action.now next) }
    ensures place { OnOk result (length tickets.new.items < vec_capacity tickets.new) }
    ensures tickets { tickets.new.items ≡ tickets.old.items }
    ensures permitted { OnOk result (Allows engine.old action.now) }
    ensures refused { IfErr result
        (λ why. IsRefused engine.old.form engine.old.limit engine.old.history action.now why) }
    ensures form { engine.new.form ≡ engine.old.form }
    ensures history { engine.new.history ≡ engine.old.history }
    ensures limit { engine.new.limit ≡ engine.old.limit }
{
    let next = engine.prepare(alloc, action)?;
    engine.reserve_one()?;
    tickets.reserve(1)?;
    Ok(next)
}
