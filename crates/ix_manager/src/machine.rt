//! The protocol machine: the engine with the tickets of its history, the reservation, the watches,
//! the moment, the boot and the next number.

ghost use Rattle.std.specs.Prelude.{◌≡◌, ◌+◌, ◌-◌, ◌^◌, ◌<◌, ◌≤◌, [], length};
ghost use Rattle.ix_watch.specs.inside.Watches.{changes_of};
ghost use Rattle.std.specs.List.{zip};
ghost use Rattle.ix_manager.specs.Machine.{start_of, word_of};
ghost use Rattle.ix_manager.specs.Runs.{raised};
ghost use Rattle.ix_manager.specs.inside.Core.{MachineAnswers, IsRefreshed, TellsPoll};
ghost use Rattle.ix_manager.specs.inside.Does.{MayReserve};
ghost use Rattle.ix_manager.specs.inside.Ready.{IsSoundRenewal};
ghost use Rattle.ix_proto.specs.Requests.{PlainRequest, IsRequest};
ghost use Rattle.ix_proto.specs.inside.Lends.{LendsRequest};

use ix_engine::{Engine, Next};
use ix_journal::Renewed;
use ix_lease::Slot;
use ix_proto::{Reply, Request};
use ix_values::{Action, Name, Ticket};
use ix_watch::{Changes, WATCH_LIMIT, Watches};
use std::alloc::Global;
use std::marker::Model;

/// What the machine answers to a request.
#[derive(Clone, Copy)]
pub(crate) enum Answer {
    /// One reply.
    One(Reply),
    /// The changes of this name are to be told, and then noted as told.
    Poll(Name),
    /// The confirm of this ticket is to be answered.
    Confirm(Ticket),
    /// The run ends, and that is to be told.
    Stop,
}

#[derive(Drop)]
pub(crate) struct Machine {
    pub(crate) engine: Engine,
    /// The tickets of the confirmed actions, as far as they are known, the oldest first.
    pub(crate) tickets: Vec<Option<Ticket>>,
    /// The action that is reserved, prepared, where the slot is held.
    pub(crate) pending: Option<Next>,
    pub(crate) slot: Slot,
    pub(crate) watches: Watches,
    /// The greatest moment of all events so far, in milliseconds.
    pub(crate) moment: u64,
    /// What the carried actions stand for.
    pub(crate) renewed: Renewed,
    /// How many times the journal was started from, this run included.
    pub(crate) boot: u64,
    /// The number of the next ticket.
    pub(crate) number: u64,
}

impl Model for Machine {
    ghost use Rattle.ix_manager.specs.inside.Core.{Core, core_watch};
    ghost use Rattle.ix_expr.specs.lemmas.FormCode.{form_code};
    ghost use Rattle.std.specs.Coded.{codes};
    ghost use Rattle.std.specs.Prelude.{map};
    ghost use Rattle.std.specs.List.{zip};

    ghost Value = { Core };

    ghost coded = { Prim.hlevel (codes, form_code) };

    ghost view = { λ m. record {
      form = m.engine.form;
      limit = m.engine.limit;
      state = record {
        history = zip m.tickets.items m.engine.history;
        renewed = m.renewed;
        slot = m.slot;
        watches = map core_watch m.watches;
        moment = m.moment;
        boot = m.boot;
        number = m.number;
      };
      noted = m.watches;
    } };

    ghost use Rattle.ix_manager.specs.inside.Ready.{IsMachine};

    // Each action has its ticket, or none. That of a reservation is prepared, and there is memory
    // for both. No more actions are carried than they stand for.
    ghost invariant = { λ m. IsMachine m.engine m.tickets m.slot m.pending m.renewed };
}

impl Machine {
    /// The machine of an engine and the tickets of its actions, of which the carried ones stand for
    /// this, at the start of this boot.
    pub(crate) fn new(
        alloc: Global,
        engine: Engine,
        tickets: Vec<Option<Ticket>>,
        renewed: Renewed,
        boot: u64,
    ) -> Machine
        requires each { length tickets.items ≡ length engine.history }
        requires stands { IsSoundRenewal renewed }
        ensures { result ≡ record {
          form = engine.form;
          limit = engine.limit;
          state = start_of (zip tickets.items engine.history) renewed boot;
          noted = [];
        } }
    {
        Machine {
            engine,
            tickets,
            pending: None,
            slot: Slot::Free,
            watches: Watches::new(alloc),
            moment: 0,
            renewed,
            boot,
            number: 1,
        }
    }

    /// The moment never goes back.
    pub(crate) fn raise(&mut self, moment: u64)
        ensures { self.new ≡ record self.old { state = raised moment self.old.state } }
    {
        self.moment = self.moment.max(moment);
    }

    pub(crate) fn answer(&mut self, alloc: Global, request: &Request<'_>) -> Answer
        requires read { (plain : PlainRequest) × IsRequest plain × LendsRequest request.now plain }
        requires tickets { self.old.state.number < 2 ^ 64 - 1 }
        ensures answers { MachineAnswers self.old request.now result self.new }
        ensures tickets { MayReserve self.old.state self.new.state }
        ensures history { self.new.state.history ≡ self.old.state.history }
        ensures form { self.new.form ≡ self.old.form }
        ensures limit { self.new.limit ≡ self.old.limit }
    {
        match *request {
            Request::Ask { action, lease } => {
                Answer::One(self.ask(alloc, Action::of_text(action), lease))
            }
            Request::Confirm(ticket) => Answer::Confirm(ticket),
            Request::Cancel(ticket) => Answer::One(self.cancel(ticket)),
            Request::Outcome(ticket) => Answer::One(self.outcome(&ticket)),
            Request::May(action) => Answer::One(self.may(&Action::of_text(action))),
            Request::Watch { name, action } => {
                Answer::One(self.watch(alloc, Name::of_text(name), Action::of_text(action)))
            }
            Request::Drop { name, action } => {
                Answer::One(self.drop_watch(&Name::of_text(name), &Action::of_text(action)))
            }
            Request::Poll(name) => self.poll(alloc, Name::of_text(name)),
            Request::Status => Answer::One(self.status()),
            Request::Log(number) => Answer::One(self.log(number)),
            Request::Stop => Answer::Stop,
        }
    }

    /// The actions of the name whose allowance isn't what was told, in order, with their allowance.
    pub(crate) fn changes<'a>(&'a self, name: &'a Name) -> Changes<'a>
        ensures changes { result ≡ changes_of name.now self.now.noted }
        ensures few { length self.now.noted ≤ WATCH_LIMIT }
    {
        prove!(self.watches.len() <= WATCH_LIMIT);
        self.watches.changes(name)
    }

    /// Notes that the changes of the name were told.
    pub(crate) fn tell(&mut self, name: &Name)
        requires { IsRefreshed self.old name.now }
        ensures { TellsPoll self.old name.now self.new }
    {
        self.watches.tell(name);
    }

    /// The confirmed actions, the oldest first.
    pub(crate) fn history(&self) -> &[Action]
        ensures { result.now ≡ word_of self.now.state }
    {
        self.engine.history()
    }

    /// The number of the next ticket.
    pub(crate) fn number(&self) -> u64
        ensures { result ≡ self.now.state.number }
    {
        self.number
    }
}
