//! The four calls of a client. Each sends one request over the link, and takes no memory.
ghost use Rattle.std.specs.Prelude.{◌≡◌};
ghost use Rattle.ix_proto.specs.Requests.{IsLease};
ghost use Rattle.ix_client.specs.Grants.{asked_by, cancelled_by, confirmed_by, refused_by};
ghost use Rattle.ix_client.specs.Grants.{settled_by};
ghost use Rattle.ix_client.specs.Hearing.{Asks, Cancels, Confirms, SettlesBy};

use crate::exchange::exchange;
use crate::grants::{AskFault, Cancel, Confirm, Granted, Pending, Settle};
use crate::lines::{ask_line, cancel_line, confirm_line, outcome_line};
use crate::link::{Link, LinkFailed};
use ix_proto::{Outcome, Reply};
use ix_values::Action;

/// The code of a refusal for want of memory.
const NO_MEMORY: u8 = 90;

/// The code of a refusal of a reservation that is over.
const EXPIRED: u8 = 31;

/// The code of a refusal to tell what became of a ticket, since it is left out of the journal.
pub(crate) const LEFT_OUT: u8 = 32;

/// Asks for an action, to be reserved for `lease` milliseconds, 1 to 86400000. What is granted must
/// be confirmed or cancelled.
///
/// A refusal from 20 to 23 is told with its code, 90 as want of the manager's memory, and a failed
/// call as the link's. Any other line is odd.
pub fn ask<L: Link>(link: &mut L, action: &Action, lease: u32) -> Result<Granted, AskFault>
    requires { IsLease lease }
    ensures { Asks action.now lease result (L.state link.old) (L.state link.new) }
{
    let line = ask_line(action, lease);
    asked(*action, exchange(link, line.as_slice()))
}

/// Tells the manager that the granted action was done. `Done` comes of a reply that it is
/// confirmed, and `Expired` of 31; after any other line, and after a failed call, the grant is
/// handed back, to be settled.
pub fn confirm<L: Link>(link: &mut L, granted: Granted) -> Confirm
    ensures { Confirms granted result (L.state link.old) (L.state link.new) }
{
    let line = confirm_line(granted.ticket);
    confirmed(granted, exchange(link, line.as_slice()))
}

/// Tells the manager that the granted action won't be done. `Done` comes of a reply that this
/// ticket is cancelled, and `Expired` of 31; after any other line, and after a failed call, the
/// grant is handed back, to be settled.
pub fn cancel<L: Link>(link: &mut L, granted: Granted) -> Cancel
    ensures { Cancels granted result (L.state link.old) (L.state link.new) }
{
    let line = cancel_line(granted.ticket);
    cancelled(granted, exchange(link, line.as_slice()))
}

/// Asks what became of an action: it is in the history, it never will be, that is left out since
/// the journal was renewed, or its reservation is still open and the grant is handed back as
/// granted. After any other line, and after a failed call, it is handed back as it was.
pub fn settle<L: Link>(link: &mut L, pending: Pending) -> Settle
    ensures { SettlesBy pending result (L.state link.old) (L.state link.new) }
{
    let line = outcome_line(pending.ticket);
    settled(pending, exchange(link, line.as_slice()))
}

/// What an ask of the action answers when this was heard.
fn asked(action: Action, heard: Result<Option<Reply>, LinkFailed>) -> Result<Granted, AskFault>
    ensures { result ≡ asked_by action heard }
{
    match heard {
        Ok(Some(Reply::Granted(ticket))) => Ok(Granted { ticket, action }),
        Ok(Some(Reply::Refused { code, .. })) => Err(ask_refused(code)),
        Ok(_) => Err(AskFault::Odd),
        Err(LinkFailed) => Err(AskFault::Link),
    }
}

fn ask_refused(code: u8) -> AskFault
    ensures { result ≡ refused_by code }
{
    match code {
        20..=23 => AskFault::Refused { code },
        NO_MEMORY => AskFault::Memory,
        _ => AskFault::Odd,
    }
}

/// What a confirm of the grant answers when this was heard.
fn confirmed(granted: Granted, heard: Result<Option<Reply>, LinkFailed>) -> Confirm
    ensures { result ≡ confirmed_by granted heard }
{
    let Granted { ticket, action } = granted;
    match heard {
        Ok(Some(told)) => match told {
            Reply::Confirmed(number) => Confirm::Done(number),
            Reply::Refused { code: EXPIRED, .. } => Confirm::Expired,
            _ => Confirm::Unsure(Pending { ticket, action }),
        },
        _ => Confirm::Unsure(Pending { ticket, action }),
    }
}

/// What a cancel of the grant answers when this was heard.
fn cancelled(granted: Granted, heard: Result<Option<Reply>, LinkFailed>) -> Cancel
    ensures { result ≡ cancelled_by granted heard }
{
    let Granted { ticket, action } = granted;
    match heard {
        Ok(Some(Reply::Cancelled(told))) if told == ticket => Cancel::Done,
        Ok(Some(Reply::Refused { code: EXPIRED, .. })) => Cancel::Expired,
        _ => Cancel::Unsure(Pending { ticket, action }),
    }
}

/// What settling answers when this was heard.
fn settled(pending: Pending, heard: Result<Option<Reply>, LinkFailed>) -> Settle
    ensures { result ≡ settled_by pending heard }
{
    let Pending { ticket, action } = pending;
    match heard {
        Ok(Some(told)) => match told {
            Reply::Outcome(Outcome::Confirmed(number)) => Settle::Done(number),
            Reply::Outcome(Outcome::Waiting) => Settle::Open(Granted { ticket, action }),
            Reply::Outcome(Outcome::Never) => Settle::Never,
            Reply::Refused { code: LEFT_OUT, .. } => Settle::LeftOut,
            _ => Settle::Unsure(Pending { ticket, action }),
        },
        _ => Settle::Unsure(Pending { ticket, action }),
    }
}
