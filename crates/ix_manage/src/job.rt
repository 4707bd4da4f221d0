//! What the words of each command name.

/// The words of a trace.
#[derive(Clone, Copy)]
pub(crate) struct TraceWords<'a> {
    pub expression: &'a str,
    pub actions: &'a str,
    /// The limit of Size.
    pub limit: usize,
}

/// The words of a job that takes the actions of a file as its history.
#[derive(Clone, Copy)]
pub(crate) struct HistoryWords<'a> {
    pub expression: &'a str,
    pub actions: &'a str,
    /// The limit of Size.
    pub limit: usize,
}

/// The words of a stuck.
#[derive(Clone, Copy)]
pub(crate) struct StuckWords<'a> {
    pub expression: &'a str,
    pub values: &'a str,
    /// The limit of Size.
    pub limit: usize,
    /// The most states that are visited.
    pub states: usize,
}

/// The words of a follow.
#[derive(Clone, Copy)]
pub(crate) struct FollowWords<'a> {
    pub expression: &'a str,
    pub lines: &'a str,
    /// The limit of Size.
    pub limit: usize,
}

/// The words of a replay.
#[derive(Clone, Copy)]
pub(crate) struct ReplayWords<'a> {
    pub expression: &'a str,
    pub journal: &'a str,
    pub script: &'a str,
    /// The limit of Size.
    pub limit: usize,
    /// The most events that are taken.
    pub turns: u64,
}

/// The words of a serve.
#[derive(Clone, Copy)]
pub(crate) struct ServeWords<'a> {
    pub expression: &'a str,
    pub journal: &'a str,
    pub socket: &'a str,
    /// The limit of Size.
    pub limit: usize,
    /// The most events that are taken.
    pub turns: u64,
}

/// The words of a renew.
#[derive(Clone, Copy)]
pub(crate) struct RenewWords<'a> {
    pub expression: &'a str,
    /// The journal that rests.
    pub journal: &'a str,
    /// The file in which the renewed one is made.
    pub new: &'a str,
    /// The limit of Size.
    pub limit: usize,
}

/// The words of a work.
#[derive(Clone, Copy)]
pub(crate) struct WorkWords {
    /// How many asks are made.
    pub count: u64,
    pub seed: u64,
    /// The limit of Size.
    pub limit: usize,
}
