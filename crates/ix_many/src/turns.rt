//! Whose turn it is: round by round, each place that wants one has it once in a round.
ghost use Rattle.std.specs.Prelude.{◌≡◌, ◌<◌, ◌≤◌, true, false, replicate, set, IfSome};
ghost use Rattle.ix_many.specs.Rounds.{IsNextTurn, place_behind};

use crate::wire::CONNECTIONS;
use std::marker::Model;

#[derive(Drop)]
pub(crate) struct Turns {
    wants: [bool; CONNECTIONS],
    /// From which place on the next one is sought.
    at: usize,
}

/// Contracts see who wants a turn, and from where on the next one is sought.
impl Model for Turns {
    ghost use Rattle.std.specs.Prelude.{◌≤◌};
    ghost use Rattle.ix_many.specs.inside.Turns.{TurnsState};

    ghost Value = { TurnsState };

    ghost view = { λ turns. record { wants = turns.wants; at = turns.at } };

    ghost invariant = { λ turns. turns.at ≤ 64 };
}

impl Turns {
    /// Nobody wants one.
    pub(crate) fn new() -> Turns
        ensures { result ≡ record { wants = replicate 64 false; at = 0 } }
    {
        Turns {
            wants: [false; CONNECTIONS],
            at: 0,
        }
    }

    /// This place wants a turn from now on.
    pub(crate) fn want(&mut self, place: usize)
        requires { place < 64 }
        ensures { self.new ≡ record self.old { wants = set self.old.wants place true } }
    {
        self.wants[place] = true;
    }

    /// This place wants none any more.
    pub(crate) fn rest(&mut self, place: usize)
        requires { place < 64 }
        ensures { self.new ≡ record self.old { wants = set self.old.wants place false } }
    {
        self.wants[place] = false;
    }

    /// Whether this place wants a turn.
    pub(crate) fn is_wanted(&self, place: usize) -> bool
        requires { place < 64 }
    {
        self.wants[place]
    }

    /// Whether any place wants one.
    pub(crate) fn any(&self) -> bool {
        self.wants.iter().any(|wants| *wants)
    }

    /// The next place of this round that wants a turn. None where the round is over: another
    /// begins.
    pub(crate) fn next(&mut self) -> Option<usize>
        ensures next { IsNextTurn self.old.wants self.old.at result }
        ensures same { self.new.wants ≡ self.old.wants }
        ensures at { self.new.at ≡ place_behind result }
        ensures bound { IfSome result (λ place. place < 64) }
    {
        let next = first_wanted(&self.wants, self.at);
        self.at = match next {
            Some(place) => place + 1,
            None => 0,
        };
        next
    }
}

/// The first place from this one on that wants a turn.
fn first_wanted(wants: &[bool; CONNECTIONS], from: usize) -> Option<usize>
    ensures next { IsNextTurn wants.now from result }
    ensures bound { IfSome result (λ place. place < 64) }
{
    for place in from..CONNECTIONS {
        if wants[place] {
            return Some(place);
        }
    }
    None
}
