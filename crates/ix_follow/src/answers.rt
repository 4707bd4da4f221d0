//! What a follower answers to a line.

/// What a line was to a follower. Only a `Taken` entry changes its history.
#[derive(Clone, Copy, Debug, PartialEq, Eq)]
pub enum Fed {
    /// The line isn't the text of an entry with a number from 1, nor the refusal of one that is
    /// left out.
    Other,
    /// The line refuses an entry that is left out of the journal: the log from before its renewal
    /// has it.
    LeftOut,
    /// The entry of this number comes too early: one before it is missing. It isn't kept.
    Early(u64),
    /// The history has the action of this number already, and it is the same.
    Old(u64),
    /// The entry of this number was the next one, and its action is the last of the history now.
    Taken(u64),
}

/// Why an entry wasn't taken. The history stays as it is.
#[derive(Clone, Copy, Debug, PartialEq, Eq)]
pub enum FollowFault {
    /// The history has another action of this number.
    Differs { number: u64 },
    /// The action of the next number may not come next.
    NotPartial { number: u64 },
    /// The history has 1,000,000 actions, and no more are taken.
    Full { number: u64 },
    /// The tree of the history with the action of this number has a Size above the limit.
    Over { number: u64, limit: usize },
    /// Memory ran out.
    Memory,
}
