//! The follower.

ghost use Rattle.std.specs.Prelude.{◌≡◌, ◌+◌, ◌<◌, ◌≤◌, ◌↔◌, ℕ, List, [], ◌∷◌, ◌++◌, length, codes};
ghost use Rattle.std.specs.Prelude.{IsTrue, IfOk, OnOk};
ghost use Rattle.std.specs.Fmt.{decimal};
ghost use Rattle.ix_expr.specs.Meaning.{IsComplete};
ghost use Rattle.ix_can.specs.TreeOf.{tree_size};
ghost use Rattle.ix_step.specs.inside.Limits.{most_size};
ghost use Rattle.ix_engine.specs.inside.Engine.{Permits};
ghost use Rattle.ix_proto.specs.Replies.{IsReply, reply_text};
ghost use Rattle.ix_follow.specs.Following.{FollowsLine, IsNextNumber, LeavesFollowed, Meets};

use crate::{Fed, FollowFault};
use arrayvec::ArrayVec;
use ix_engine::{Engine, PrepareFault};
use ix_expr::Expression;
use ix_lines::{append, append_number};
use ix_proto::Reply;
use ix_step::BuildFault;
use ix_values::Action;
use std::alloc::Global;
use std::marker::Model;

/// The most actions that a history has.
const MOST_ACTIONS: usize = 1_000_000;

/// The code of the refusal of an entry that is left out of the journal.
const ENTRY_LEFT_OUT: u8 = 33;

/// The prefix of a manager's history that its entries told so far, in an engine of the same
/// expression.
#[derive(Drop)]
pub struct Follower {
    engine: Engine,
}

impl Model for Follower {
    ghost use Rattle.ix_engine.specs.inside.Engine.{EngineState};
    ghost use Rattle.ix_expr.specs.lemmas.FormCode.{form_code};
    ghost use Rattle.std.specs.Coded.{codes};

    ghost Value = { EngineState };

    ghost coded = { Prim.hlevel (codes, form_code) };

    ghost view = { λ s. s.engine };
}

impl Follower {
    /// The follower of an expression with an empty history. The limit, 1 to 1,000,000, is the most
    /// that the Size of its tree may be; `Over` comes exactly where the tree of the empty word is
    /// above it. A refused expression is dropped.
    pub fn new(alloc: Global, expression: Expression, limit: usize) -> Result<Follower, BuildFault>
        requires least { 1 ≤ limit }
        requires most { limit ≤ most_size }
        ensures form { IfOk result (λ s. s.form ≡ expression) }
        ensures history { IfOk result (λ s. s.history ≡ []) }
        ensures limit { IfOk result (λ s. s.limit ≡ limit) }
        ensures within { OnOk result (tree_size expression [] ≤ limit) }
        ensures over { (l : ℕ) → result ≡ Err (BuildFault.Over l)
            → (l ≡ limit) × (limit < tree_size expression []) }
    {
        match Engine::new(alloc, expression, limit) {
            Ok(engine) => Ok(Follower { engine }),
            Err(fault) => Err(fault),
        }
    }

    /// The actions that were taken, the oldest first, at most 1,000,000.
    pub fn history(&self) -> &[Action]
        ensures value { result.now ≡ self.now.history }
        ensures most { length self.now.history ≤ MOST_ACTIONS }
    {
        self.engine.history()
    }

    /// Whether the history extended by the action is a partial word.
    pub fn may(&self, action: &Action) -> bool
        ensures { IsTrue result ↔ Permits self.now action.now }
    {
        self.engine.may(action)
    }

    /// Whether the history is a complete word.
    pub fn is_complete(&self) -> bool
        ensures { IsTrue result ↔ IsComplete self.now.form [] self.now.history }
    {
        self.engine.is_complete()
    }

    /// Writes the request for the next entry, with the byte 10 that ends it.
    pub fn wanted(&self, out: &mut ArrayVec<u8, 256>)
        requires { out.old.items ≡ [] }
        ensures { out.new.items
            ≡ codes "log " ++ decimal (length self.now.history + 1) ++ 10 ∷ [] }
    {
        let number = self.engine.history().len() + 1;
        append(out, b"log ");
        append_number(out, number as u64);
        out.push(b'\n');
    }

    /// FollowsLine a line, which is given without its byte 10. `LeftOut` comes exactly where it is
    /// `refused 33 left out`, and `Other` where it is neither that nor the text of an entry with a
    /// number from 1. An entry whose number is above the next one is `Early`, and is dropped. One
    /// whose number the history has is `Old` where its action is the kept one, and else refused as
    /// `Differs`. The next one is `Taken`, and its action appended, unless the engine refuses it,
    /// which is told as the engine tells it. At a fault nothing changes, and want of memory comes
    /// only where the next entry could be taken.
    pub fn feed(&mut self, alloc: Global, line: &[u8]) -> Result<Fed, FollowFault>
        ensures feeds { FollowsLine self.old.form self.old.limit self.old.history line.now result
            self.new.history }
        ensures form { self.new.form ≡ self.old.form }
        ensures limit { self.new.limit ≡ self.old.limit }
    {
        match Reply::read(line) {
            Some(reply) => self.hear(alloc, &reply),
            None => Ok(Fed::Other),
        }
    }

    /// A line that is a reply's text.
    fn hear(&mut self, alloc: Global, reply: &Reply) -> Result<Fed, FollowFault>
        ensures hears { (line : List ℕ) → IsReply reply.now → reply_text reply.now ≡ line
            → FollowsLine self.old.form self.old.limit self.old.history line result
            self.new.history }
        ensures form { self.new.form ≡ self.old.form }
        ensures limit { self.new.limit ≡ self.old.limit }
    {
        match reply {
            Reply::Entry(number, action) => {
                if *number == 0 {
                    return Ok(Fed::Other);
                }
                self.meet(alloc, *number, action)
            }
            Reply::Refused { code, .. } => {
                if *code == ENTRY_LEFT_OUT {
                    return Ok(Fed::LeftOut);
                }
                Ok(Fed::Other)
            }
            _ => Ok(Fed::Other),
        }
    }

    /// An entry with a number from 1.
    fn meet(&mut self, alloc: Global, number: u64, action: &Action) -> Result<Fed, FollowFault>
        requires { 1 ≤ number }
        ensures meets { Meets self.old.form self.old.limit self.old.history number action.now
            result }
        ensures leaves { LeavesFollowed self.old.history action.now result self.new.history }
        ensures form { self.new.form ≡ self.old.form }
        ensures limit { self.new.limit ≡ self.old.limit }
    {
        let next = self.engine.history().len() as u64 + 1;
        if number > next {
            return Ok(Fed::Early(number));
        }
        if number == next {
            return self.take_next(alloc, number, action);
        }
        self.compare(number, action)
    }

    /// An entry whose number the history has.
    fn compare(&self, number: u64, action: &Action) -> Result<Fed, FollowFault>
        requires from_one { 1 ≤ number }
        requires kept { number ≤ length self.now.history }
        ensures meets { Meets self.now.form self.now.limit self.now.history number action.now
            result }
        ensures leaves { LeavesFollowed self.now.history action.now result self.now.history }
    {
        let kept = &self.engine.history()[(number - 1) as usize];
        if *kept == *action {
            Ok(Fed::Old(number))
        } else {
            Err(FollowFault::Differs { number })
        }
    }

    /// The entry with the next number.
    fn take_next(&mut self, alloc: Global, number: u64, action: &Action) -> Result<Fed, FollowFault>
        requires { IsNextNumber self.old.history number }
        ensures meets { Meets self.old.form self.old.limit self.old.history number action.now
            result }
        ensures leaves { LeavesFollowed self.old.history action.now result self.new.history }
        ensures form { self.new.form ≡ self.old.form }
        ensures limit { self.new.limit ≡ self.old.limit }
    {
        match self.engine.take(alloc, action) {
            Ok(()) => Ok(Fed::Taken(number)),
            Err(PrepareFault::NotPartial) => Err(FollowFault::NotPartial { number }),
            Err(PrepareFault::Full) => Err(FollowFault::Full { number }),
            Err(PrepareFault::Over { limit }) => Err(FollowFault::Over { number, limit }),
            Err(PrepareFault::Memory) => Err(FollowFault::Memory),
        }
    }
}
