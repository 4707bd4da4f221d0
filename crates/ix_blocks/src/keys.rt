//! A store of keys that has a file in blocks, as a trait.

ghost use Rattle.std.specs.Prelude.{IfOk, Option};
ghost use Rattle.ix_blocks.specs.Stores.{Store};
ghost use Rattle.ix_blocks.specs.inside.StoreCalls.{WhereTold, TimePasses, SeesHead, ReadsBlock};
ghost use Rattle.ix_blocks.specs.inside.StoreCalls.{SendsOne, AnswersSo};
ghost use Rattle.ix_blocks.specs.inside.PlainBlocks.{plain_request};

use crate::{Commit, NoRoom, Request, Seen};
use std::alloc::Global;

/// No answer came. What was sent may have come, may come at any later moment, or never.
#[derive(Clone, Copy, Debug, PartialEq, Eq)]
pub struct Unanswered;

/// Why a call of an owner did not do its work.
#[derive(Clone, Copy, Debug, PartialEq, Eq)]
pub enum Fault {
    /// No answer came. What was sent may have come, may come at any later moment, or never.
    NoAnswer,
    /// The owner can sync no more: another one has attached, or a sync of its own failed.
    Ended,
    /// A block is missing, or is shorter or longer than the file's length says.
    Damaged,
    /// There is no room.
    NoRoom(NoRoom),
}

/// A store of the keys of one file: its head, and its blocks. What is sent to it is lost, delayed
/// or repeated at will, but each transaction takes effect whole, where its guard fits, and at one
/// moment, which all that use the store agree on.
pub trait Keys {
    /// What the store tells of the keys, and of what was ever sent to it, if it tells.
    ghost state: { Self → Option Store };

    /// The head, as it is at a moment of the call.
    fn look(&mut self) -> Result<Seen, Unanswered>
        ensures sees { IfOk result
            (λ seen. WhereTold (SeesHead seen) (state self.old) (state self.new)) }
        ensures rest { WhereTold TimePasses (state self.old) (state self.new) };

    /// The bytes of a block, none where it is absent, at a moment of the call at which the head was
    /// the one that was put last at the revision `at`.
    fn block(&mut self, alloc: Global, number: usize, at: u64) -> Result<Vec<u8>, Unanswered>
        ensures reads { IfOk result (λ bytes.
            WhereTold (ReadsBlock number at bytes.items) (state self.old) (state self.new)) }
        ensures rest { WhereTold TimePasses (state self.old) (state self.new) };

    /// Sends a transaction, and what the store answered to it when it came.
    fn commit(&mut self, request: Request) -> Result<Commit, Unanswered>
        ensures answers { IfOk result (λ says.
            WhereTold (AnswersSo (plain_request request) says) (state self.old) (state self.new)) }
        ensures rest { WhereTold (SendsOne (plain_request request))
            (state self.old) (state self.new) };
}
