//! What reading a journal comes to.

/// What a journal holds.
#[derive(Clone, Copy, Debug)]
pub struct Scan<'a> {
    /// The text of the header, or None where the journal is unfinished.
    pub text: Option<&'a [u8]>,
    /// How many open records are of actions: 0 for an unfinished or unopened journal.
    pub count: usize,
    /// The place of the first closed gate: 0 for an unfinished or unopened journal.
    pub gate: usize,
    /// The number of the last boot: how many open records are boots, behind a renewal with those of
    /// the journals before, and 0 for an unfinished or unopened journal.
    pub boots: u64,
}

/// Why a file can't be read as a journal.
#[derive(Clone, Copy, Debug, PartialEq, Eq)]
pub enum JournalFault {
    /// The file is no journal.
    NotJournal,
    /// The open gate in front of this place isn't followed by a whole record that may stand there
    /// and a further gate.
    Damaged { at: usize },
    /// The 1,000,001st record of an action is open, or the 1,000,001st boot.
    Many,
}
