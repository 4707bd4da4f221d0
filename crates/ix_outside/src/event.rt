//! What a site tells of its connections.

/// What happened on a connection.
#[derive(Clone, Copy, Debug, PartialEq, Eq)]
pub enum EventKind {
    /// This many bytes came.
    Bytes(usize),
    /// The connection was closed.
    Closed,
    /// No further event will come.
    End,
}

/// An event of a connection. `moment` is in milliseconds, and may go back from
/// one event to the next.
#[derive(Clone, Copy, Debug, PartialEq, Eq)]
pub struct Event {
    pub conn: u8,
    pub moment: u64,
    pub kind: EventKind,
}
