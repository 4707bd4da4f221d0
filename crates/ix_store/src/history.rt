//! The history that a start gives.

use ix_values::{Action, Ticket};
use std::alloc::{AllocError, Global};
use std::marker::Model;

/// The confirmed actions, the oldest first, and of each the ticket that was spent on it where that
/// is kept. They stand in two lists of one length, which whoever goes on from them takes as they
/// are: so a start holds a history once.
#[derive(Drop)]
pub struct History {
    tickets: Vec<Option<Ticket>>,
    actions: Vec<Action>,
}

impl Model for History {
    ghost use Rattle.std.specs.Prelude.{◌≡◌, length};
    ghost use Rattle.std.specs.List.{zip};
    ghost use Rattle.ix_journal.specs.History.{PlainHistory};

    ghost Value = { PlainHistory };

    ghost view = { λ h. zip h.tickets.items h.actions.items };

    ghost invariant = { λ h. length h.tickets.items ≡ length h.actions.items };
}

impl History {
    ghost use Rattle.std.specs.Prelude.{◌≡◌, [], ◌∷◌, ◌++◌, length, map, OnOk};
    ghost use Rattle.ix_journal.specs.History.{Spent, actions_of};

    /// Nothing was confirmed.
    pub(crate) fn new(alloc: Global) -> History
        ensures { result ≡ [] }
    {
        History {
            tickets: Vec::new(alloc),
            actions: Vec::new(alloc),
        }
    }

    /// Puts an action with its ticket behind the others.
    pub(crate) fn push(&mut self, ticket: Option<Ticket>, action: Action) -> Result<(), AllocError>
        ensures { OnOk result (self.new ≡ self.old ++ (ticket, action) ∷ []) }
    {
        self.actions.push(action)?;
        match self.tickets.push(ticket) {
            Ok(()) => Ok(()),
            Err(fault) => {
                self.actions.pop();
                Err(fault.into())
            }
        }
    }

    /// How many actions were confirmed.
    pub fn len(&self) -> usize
        ensures { result ≡ length self.now }
    {
        self.actions.len()
    }

    /// The tickets and the actions. No memory is taken.
    pub fn into_parts(self) -> (Vec<Option<Ticket>>, Vec<Action>)
        ensures tickets { result.0.items ≡ map (λ (spent : Spent). spent.0) self }
        ensures actions { result.1.items ≡ actions_of self }
    {
        let History { tickets, actions } = self;
        (tickets, actions)
    }
}
