//! Grants, and what the calls answer.
ghost use Rattle.std.specs.Prelude.{◌≡◌};

use ix_values::{Action, Ticket};
use std::marker::Model;

/// A granted action, reserved under its ticket. It must be confirmed or cancelled: the compiler
/// refuses a program that lets go of it.
#[derive(Debug)]
pub struct Granted {
    pub(crate) ticket: Ticket,
    pub(crate) action: Action,
}

impl Model for Granted {
    ghost use Rattle.ix_client.specs.Grant.{Grant};

    ghost Value = { Grant };

    ghost view = { λ g. record { ticket = g.ticket; action = g.action } };
}

impl Granted {
    /// The ticket under which the action is reserved.
    pub fn ticket(&self) -> Ticket
        ensures { result ≡ self.now.ticket }
    {
        self.ticket
    }

    /// The action that is reserved.
    pub fn action(&self) -> &Action
        ensures { result.now ≡ self.now.action }
    {
        &self.action
    }
}

/// A granted action of which it isn't known what became of it. It must be settled: the compiler
/// refuses a program that lets go of it.
#[derive(Debug)]
pub struct Pending {
    pub(crate) ticket: Ticket,
    pub(crate) action: Action,
}

impl Model for Pending {
    ghost use Rattle.ix_client.specs.Grant.{Grant};

    ghost Value = { Grant };

    ghost view = { λ g. record { ticket = g.ticket; action = g.action } };
}

impl Pending {
    /// The grant of this ticket and this action again, of which a program wrote them down before it
    /// confirmed it, and crashed. What is promised of a settling is promised of what was granted.
    pub fn of(ticket: Ticket, action: Action) -> Pending
        ensures { result ≡ record { ticket = ticket; action = action } }
    {
        Pending { ticket, action }
    }

    /// The ticket that was granted.
    pub fn ticket(&self) -> Ticket
        ensures { result ≡ self.now.ticket }
    {
        self.ticket
    }

    /// The action of which it isn't known what became of it.
    pub fn action(&self) -> &Action
        ensures { result.now ≡ self.now.action }
    {
        &self.action
    }
}

/// Why an ask wasn't granted.
#[derive(Clone, Copy, Debug, PartialEq, Eq)]
pub enum AskFault {
    /// The manager refused it: 20 another action is reserved, 21 the action may not come next, 22
    /// the state would be above the limit, 23 the history is full.
    Refused { code: u8 },
    /// The manager has no memory for it.
    Memory,
    /// The reply was none that an ask has.
    Odd,
    /// The call of the link failed.
    Link,
}

/// What a confirm answers.
#[derive(Debug)]
pub enum Confirm {
    /// The action is the one of this number of the history, counted from 1.
    Done(u64),
    /// The reservation was over. The action isn't in the history, and never will be by this ticket.
    Expired,
    /// It isn't known whether the action is in the history.
    Unsure(Pending),
}

/// What a cancel answers.
#[derive(Debug)]
pub enum Cancel {
    /// The reservation is cancelled.
    Done,
    /// The reservation was over before.
    Expired,
    /// It isn't known what became of the reservation.
    Unsure(Pending),
}

/// What settling answers.
#[derive(Debug)]
pub enum Settle {
    /// The action is the one of this number of the history, counted from 1.
    Done(u64),
    /// The action isn't in the history, and never will be by this ticket.
    Never,
    /// Whether the action is in the history is left out since the journal was renewed, and no later
    /// run tells it.
    LeftOut,
    /// The reservation is still open, and may be confirmed or cancelled.
    Open(Granted),
    /// It still isn't known.
    Unsure(Pending),
}
