//! The refusals of requests.

ghost use Rattle.std.specs.Prelude.{◌≡◌};
ghost use Rattle.ix_manager.specs.inside.Refused.{refusal_of_fault, reply_of};

use ix_engine::PrepareFault;
use ix_proto::Reply;

/// Why a request is refused.
#[derive(Clone, Copy, Debug, PartialEq, Eq)]
pub(crate) enum Refusal {
    /// The line is no request; the code tells its fault.
    NoRequest { code: u8 },
    /// A line has more bytes than it may.
    LineTooLong,
    /// A reservation is open up to a deadline.
    Busy { deadline: u64 },
    /// The action may not come next.
    NotPermitted,
    /// The Size of the extended history's tree is above the limit.
    Large { limit: u64 },
    /// The history has as many actions as it may.
    Full,
    /// No reservation has the ticket.
    NoSuchTicket,
    /// The reservation of the ticket isn't open any more.
    Expired,
    /// Whether an action was confirmed with the ticket is left out of the journal.
    TicketLeftOut,
    /// The entry is left out of the journal.
    EntryLeftOut,
    /// There are as many watches as there may be.
    TooManyWatches,
    /// The pair isn't watched.
    NoSuchWatch,
    /// The history has no such entry.
    NoSuchEntry,
    /// Memory ran out.
    Memory,
    /// The disk failed.
    Disk,
}

impl From<PrepareFault> for Refusal {
    ghost from_gives = { λ fault refusal. refusal ≡ refusal_of_fault fault };

    fn from(fault: PrepareFault) -> Refusal {
        match fault {
            PrepareFault::NotPartial => Refusal::NotPermitted,
            PrepareFault::Full => Refusal::Full,
            PrepareFault::Over { limit } => Refusal::Large {
                limit: limit as u64,
            },
            PrepareFault::Memory => Refusal::Memory,
        }
    }
}

/// The reply that tells a refusal: its code, and its number, which is 0 where it has none.
pub(crate) fn refused(refusal: Refusal) -> Reply
    ensures { result ≡ reply_of refusal }
{
    let (code, number) = match refusal {
        Refusal::NoRequest { code } => (code, 0),
        Refusal::LineTooLong => (10, 0),
        Refusal::Busy { deadline } => (20, deadline),
        Refusal::NotPermitted => (21, 0),
        Refusal::Large { limit } => (22, limit),
        Refusal::Full => (23, 0),
        Refusal::NoSuchTicket => (30, 0),
        Refusal::Expired => (31, 0),
        Refusal::TicketLeftOut => (32, 0),
        Refusal::EntryLeftOut => (33, 0),
        Refusal::TooManyWatches => (40, 0),
        Refusal::NoSuchWatch => (41, 0),
        Refusal::NoSuchEntry => (42, 0),
        Refusal::Memory => (90, 0),
        Refusal::Disk => (91, 0),
    };
    Reply::Refused { code, number }
}
