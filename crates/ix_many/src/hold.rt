//! The connection on which an action was granted just now.
//!
//! A manager has one reservation. Without a holder the asks of all others would come between a
//! grant and its confirm, and each would be refused.
ghost use Rattle.std.specs.Prelude.{◌≡◌, ◌<◌, true, false, None, IfSome};
ghost use Rattle.ix_many.specs.inside.Hold.{held_by};

use crate::wire::CONNECTIONS;
use std::marker::Model;
use std::time::Duration;

/// For how many milliseconds of a round holders are waited for, all together.
const HOLD: u64 = 50;

#[derive(Drop)]
pub(crate) struct Hold {
    /// The connection on which an action was granted just now: it comes next.
    holder: Option<usize>,
    /// The last event came in its turn, and not because its connection was the holder.
    in_turn: bool,
    /// For how long holders may still be waited for in this round.
    spare: Duration,
}

/// Contracts see who is the holder, and whether the last event came in its turn.
impl Model for Hold {
    ghost use Rattle.std.specs.Prelude.{◌<◌, IfSome};
    ghost use Rattle.ix_many.specs.inside.Hold.{HoldState};

    ghost Value = { HoldState };

    ghost view = { λ hold. record { holder = hold.holder; in_turn = hold.in_turn } };

    ghost invariant = { λ hold. IfSome hold.holder (λ place. place < 64) };
}

impl Hold {
    /// Nobody is the holder, and no event came yet.
    pub(crate) fn new() -> Hold
        ensures { result ≡ record { holder = None; in_turn = false } }
    {
        Hold {
            holder: None,
            in_turn: false,
            spare: Duration::ZERO,
        }
    }

    /// An action was granted on this connection: it is the holder, but only behind an event that
    /// came in its turn. So nobody is the holder for two events in a row.
    pub(crate) fn grant(&mut self, place: usize)
        requires { place < 64 }
        ensures { self.new ≡ held_by place self.old }
    {
        if self.in_turn && place < CONNECTIONS {
            self.holder = Some(place);
            self.in_turn = false;
        }
    }

    /// Takes out the holder, whose event comes next.
    pub(crate) fn take(&mut self) -> Option<usize>
        ensures holder { result ≡ self.old.holder }
        ensures taken { self.new ≡ record { holder = None; in_turn = false } }
        ensures bound { IfSome result (λ place. place < 64) }
    {
        self.in_turn = false;
        self.holder.take()
    }

    /// An event came in its turn.
    pub(crate) fn came_in_turn(&mut self)
        ensures { self.new ≡ record self.old { in_turn = true } }
    {
        self.in_turn = true;
    }

    /// A round begins.
    pub(crate) fn begin_round(&mut self)
        ensures { self.new ≡ self.old }
    {
        self.spare = Duration::from_millis(HOLD);
    }

    /// What is left of this round's time behind a wait that took so long up to now.
    pub(crate) fn left_behind(&self, waited: Duration) -> Duration {
        self.spare.saturating_sub(waited)
    }

    /// A wait is over that took so long.
    pub(crate) fn spend(&mut self, waited: Duration)
        ensures { self.new ≡ self.old }
    {
        self.spare = self.spare.saturating_sub(waited);
    }
}
