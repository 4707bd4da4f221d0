//! Why a line isn't a request's.

ghost use Rattle.std.specs.Prelude.{◌≡◌};
ghost use Rattle.ix_proto.specs.inside.Causes.{cause_code};

/// Why a line isn't a request's: the first that applies of 11 (the first word isn't one of the
/// eleven), 15 (the number of words isn't that of the request), and then, word by word from the
/// left, 12 (not an action), 16 (not a name), 13 (not a ticket, or not a number) and 14 (a number
/// that isn't a lease).
#[derive(Clone, Copy, Debug, PartialEq, Eq)]
pub struct RequestFault {
    pub code: u8,
}

/// Why a line isn't a request's.
#[derive(Clone, Copy)]
pub(crate) enum Cause {
    /// The first word isn't one of the eleven.
    UnknownRequest,
    /// An action is wanted, and the word isn't an action's text.
    NoAction,
    /// A ticket is wanted, and the word isn't a ticket's text.
    NoTicket,
    /// A number is wanted, and the word isn't one.
    NoNumber,
    /// The word that is wanted as a lease is a number outside 1 to 86400000.
    LeaseOutOfRange,
    /// There are more words or fewer than the request has.
    WordCount,
    /// A name is wanted, and the word isn't one.
    NoName,
}

impl Cause {
    pub(crate) fn code(self) -> u8
        ensures { result ≡ cause_code self }
    {
        match self {
            Cause::UnknownRequest => 11,
            Cause::NoAction => 12,
            Cause::NoTicket => 13,
            Cause::NoNumber => 13,
            Cause::LeaseOutOfRange => 14,
            Cause::WordCount => 15,
            Cause::NoName => 16,
        }
    }
}
