//! What is asked for, and what is answered.

use ix_values::Action;

/// Where the search gives up.
#[derive(Clone, Copy)]
pub struct Limits {
    /// The most that the Size of a tree may be, 1 to 1,000,000.
    pub nodes: usize,
    /// The most states that are kept.
    pub states: usize,
}

/// What the moves can lead to.
#[derive(Drop)]
pub enum Answer {
    /// Behind each partial word over the moves some moves make it complete. So many states were
    /// found; of their number nothing is claimed.
    Never {
        states: usize,
    },
    /// The moves lead to a word that no moves complete.
    Stuck {
        /// A shortest one.
        word: Vec<Action>,
        /// The nodes of the atoms, numbered in pre-order from 0, that match no action, under any
        /// environment, to which some moves behind the word lead. They ascend.
        gone: Vec<usize>,
    },
    /// There are more states than may be kept. Nothing is claimed.
    Many,
    /// The moves lead to a word whose tree is above the limit.
    Large,
    /// What was found didn't stand the check. Nothing is claimed.
    Unconfirmed,
}
