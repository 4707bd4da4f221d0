//! Which calls of a site fail.
ghost use Rattle.std.specs.Prelude.{◌≡◌, ◌<◌, IfOk};
ghost use Rattle.ix_memory.specs.Calls.{is_told, next_call};
ghost use Rattle.ix_memory.specs.PlanState.{fresh_plan};
ghost use Rattle.ix_memory.specs.inside.Adding.{with_failing};
ghost use Rattle.ix_memory.specs.inside.Fate.{fate_of, TakesRoom, TellsPlanned};
ghost use Rattle.ix_memory.specs.Plan.{plan_after, is_spent_by, room_left_behind};

use crate::MOST_ADDED;
use crate::calls::Calls;
use crate::room::put;
use std::alloc::{AllocError, Global};
use std::marker::Model;

/// How a call fares.
#[derive(Clone, Copy)]
pub(crate) enum Fate {
    /// It does what it is for.
    Works,
    /// It fails as it is told to.
    Fails,
    /// It fails since there is no room for it, and changes nothing.
    Full,
}

/// The calls that fail by their number, the numbers that were added to these later, the number from
/// which on all fail, and the room that is left, or None once it was passed.
#[derive(Drop)]
pub(crate) struct Plan {
    calls: Calls,
    added: Vec<u64>,
    fuse: Option<u64>,
    left: Option<usize>,
}

impl Model for Plan {
    ghost use Rattle.std.specs.Prelude.{◌≤◌, ◌++◌, length, vec_capacity};
    ghost use Rattle.ix_memory.specs.PlanState.{PlanState};
    ghost use Rattle.ix_memory.specs.declared.TheConstants.{MOST_ADDED};

    ghost Value = { PlanState };

    ghost view = { λ plan. record {
      calls = record { fail = plan.calls.fail ++ plan.added.items; number = plan.calls.number };
      added = length plan.added.items;
      fuse = plan.fuse;
      left = plan.left;
    } };

    // There is memory for all that can be added.
    ghost invariant = { λ plan. MOST_ADDED ≤ vec_capacity plan.added };
}

impl Plan {
    /// No call was made yet. Those whose numbers stand in `fail` are to fail, those from the number
    /// `fuse` on, and those whose cost with that of all before them is above `room`. It takes the
    /// memory for the numbers that can be added.
    pub(crate) fn new(
        alloc: Global,
        fail: Vec<u64>,
        fuse: Option<u64>,
        room: usize,
    ) -> Result<Plan, AllocError>
        ensures { IfOk result (λ plan. plan ≡ fresh_plan fail.items fuse room) }
    {
        Ok(Plan {
            calls: Calls::new(fail),
            added: Vec::with_capacity(alloc, MOST_ADDED)?,
            fuse,
            left: Some(room),
        })
    }

    /// Lets the call of this number fail too.
    pub(crate) fn fail_next(&mut self, call: u64)
        requires { self.old.added < MOST_ADDED }
        ensures { self.new ≡ with_failing call self.old }
    {
        put(&mut self.added, call);
    }

    /// How many calls were made, up to 2^64 - 1.
    pub(crate) fn calls(&self) -> u64
        ensures { result ≡ self.now.calls.number }
    {
        self.calls.number()
    }

    /// Counts the next call: whether its number stands among those that fail.
    fn count(&mut self) -> bool
        ensures told { result ≡ is_told self.old.calls }
        ensures after { self.new ≡ record self.old { calls = next_call self.old.calls } }
    {
        let is_added = self.added.contains(&self.calls.number());
        self.calls.next_fails() || is_added
    }

    pub(crate) fn make(&mut self, cost: usize) -> Fate
        ensures fate { result ≡ fate_of self.old cost }
        ensures after { self.new ≡ plan_after self.old cost }
        ensures room { TakesRoom result cost self.old self.new }
        ensures tells { TellsPlanned result self.old cost }
    {
        let is_spent = is_spent(self.fuse, self.calls.number());
        let is_told = self.count();
        self.left = room_behind(cost, self.left);
        if self.left.is_none() {
            Fate::Full
        } else if is_told || is_spent {
            Fate::Fails
        } else {
            Fate::Works
        }
    }
}

fn is_spent(fuse: Option<u64>, number: u64) -> bool
    ensures { result ≡ is_spent_by fuse number }
{
    match fuse {
        Some(fuse) => fuse <= number,
        None => false,
    }
}

fn room_behind(cost: usize, left: Option<usize>) -> Option<usize>
    ensures { result ≡ room_left_behind cost left }
{
    match left {
        Some(room) if cost <= room => Some(room - cost),
        _ => None,
    }
}
