//! Watches, and what is told of them.

ghost use Rattle.std.specs.Prelude.{◌≡◌, OnOk, OnErr, map};
ghost use Rattle.ix_proto.specs.Requests as request;
ghost use Rattle.ix_manager.specs.inside.Core.{core_watch};
ghost use Rattle.ix_manager.specs.inside.Does.{Does, PollAnswers, IsNoted, WatchAnswers};
ghost use Rattle.ix_manager.specs.Machine.{HasNoWatch};

use crate::machine::{Answer, Machine};
use crate::refusals::{Refusal, refused};
use ix_engine::Engine;
use ix_proto::Reply;
use ix_values::{Action, Name};
use ix_watch::{WATCH_LIMIT, WatchFault, Watches};
use std::alloc::{AllocError, Global};

impl Machine {
    /// Watches an action under a name, and tells whether it is allowed now.
    pub(crate) fn watch(&mut self, alloc: Global, name: Name, action: Action) -> Reply
        ensures { Does self.old (request.watch name action) result self.new }
    {
        match add_watch(alloc, &self.engine, &mut self.watches, name, action) {
            Ok(told) => Reply::Watching(told),
            Err(WatchFault::Full) => refused(Refusal::TooManyWatches),
            Err(WatchFault::Memory) => refused(Refusal::Memory),
        }
    }

    pub(crate) fn drop_watch(&mut self, name: &Name, action: &Action) -> Reply
        ensures { Does self.old (request.drop_watch name.now action.now) result self.new }
    {
        prove!(self.watches.len() <= WATCH_LIMIT);
        if self.watches.remove(name, action) {
            Reply::Dropped
        } else {
            refused(Refusal::NoSuchWatch)
        }
    }

    /// Notes which watches of a name are allowed now, which is to be told.
    pub(crate) fn poll(&mut self, alloc: Global, name: Name) -> Answer
        ensures { PollAnswers self.old name result self.new }
    {
        match refresh(alloc, &self.engine, &mut self.watches, &name) {
            Ok(()) => Answer::Poll(name),
            Err(_) => Answer::One(refused(Refusal::Memory)),
        }
    }
}

/// Watches an action under a name in these watches, which are those of the engine, and tells
/// whether it is allowed. Where the pair isn't there and the watches are full, or memory runs
/// out, they are as before.
fn add_watch(
    alloc: Global,
    engine: &Engine,
    watches: &mut Watches,
    name: Name,
    action: Action,
) -> Result<bool, WatchFault>
    ensures { WatchAnswers engine.now name action watches.old result watches.new }
{
    let full = watches.len() == WATCH_LIMIT;
    if full && !watches.has(&name, &action) {
        return Err(WatchFault::Full);
    }
    let Ok(told) = engine.permitted(alloc, &action) else {
        return Err(WatchFault::Memory);
    };
    match watches.add(name, action, told) {
        Ok(_) => Ok(told),
        Err(fault) => Err(fault),
    }
}

/// Notes for each watch of the name whether its action is allowed. Where memory runs out some
/// aren't noted; nothing else changes.
fn refresh(
    alloc: Global,
    engine: &Engine,
    watches: &mut Watches,
    name: &Name,
) -> Result<(), AllocError>
    ensures kept { map core_watch watches.new ≡ map core_watch watches.old }
    ensures noted { OnOk result (IsNoted engine.now name.now watches.new) }
    ensures asked { OnErr result (¬ HasNoWatch name.now (map core_watch watches.old)) }
{
    for index in 0..watches.len() {
        let (watched, action) = watches.at(index);
        if *watched == *name {
            let allowed = engine.permitted(alloc, action)?;
            watches.note(index, allowed);
        }
    }
    Ok(())
}
