//! The one reservation: a slot that is free, or held by a ticket up to a deadline.
#![tactic(auto)]

ghost use Rattle.std.specs.Prelude.{◌≡◌, ◌+◌, ◌-◌, ◌^◌, ◌↔◌, min, IsTrue, IfSome, IfNone};

use ix_values::{Action, Ticket};

/// A place for one reservation.
#[derive(Clone, Copy, Debug)]
pub enum Slot {
    Free,
    Held {
        ticket: Ticket,
        action: Action,
        /// The first moment at which the reservation isn't open any more, in milliseconds.
        deadline: u64,
    },
}

/// What taking a slot answers.
#[derive(Clone, Copy, Debug)]
pub enum Take {
    /// The action of the reservation, which is spent.
    Taken(Action),
    /// The slot is held with this ticket, and isn't open.
    Expired,
    /// The slot isn't held with this ticket.
    NoSuch,
}

/// The deadline of a lease that begins at this moment: their sum, and at most 2^64 - 1.
pub fn deadline_of(moment: u64, lease: u32) -> u64
    ensures { result ≡ min (moment + lease) (2 ^ 64 - 1) }
{
    moment.saturating_add(u64::from(lease))
}

impl Slot {
    ghost use Rattle.ix_lease.specs.Slots.{IsOpenAt, HasTicket};
    ghost use Rattle.ix_lease.specs.inside.Takes.{IsOpenUntil, TakesSlot};

    /// The deadline of a slot that is open at the moment: held, and the moment is below it.
    pub fn open_until(&self, moment: u64) -> Option<u64>
        ensures up_to { IfSome result (λ deadline. IsOpenUntil self.now moment deadline) }
        ensures none { IfNone result (¬ IsOpenAt self.now moment) }
    {
        match self {
            Slot::Held { deadline, .. } if moment < *deadline => Some(*deadline),
            Slot::Held { .. } | Slot::Free => None,
        }
    }

    /// Whether the slot is held, and the moment is below its deadline.
    pub fn is_open_at(&self, moment: u64) -> bool
        ensures { IsTrue result ↔ IsOpenAt self.now moment }
    {
        self.open_until(moment).is_some()
    }

    /// Whether the slot is held with this ticket, and is open at the moment.
    pub fn is_open_with(&self, moment: u64, ticket: &Ticket) -> bool
        ensures { IsTrue result ↔ IsOpenAt self.now moment × HasTicket self.now ticket.now }
    {
        match self {
            Slot::Free => false,
            Slot::Held { ticket: held, .. } => held == ticket && self.is_open_at(moment),
        }
    }

    /// Spends the reservation of this ticket where it is open. Else the slot stays as it is.
    pub fn take(&mut self, ticket: Ticket, moment: u64) -> Take
        ensures { TakesSlot self.old ticket moment result self.new }
    {
        let Slot::Held {
            ticket: held,
            action,
            deadline,
        } = self
        else {
            return Take::NoSuch;
        };
        if *held != ticket {
            return Take::NoSuch;
        }
        if moment >= *deadline {
            return Take::Expired;
        }
        let taken = Take::Taken(*action);
        *self = Slot::Free;
        taken
    }
}
