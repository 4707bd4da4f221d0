//! The turns of a run whose confirm left it unsure.
ghost use Rattle.ix_client.specs.Client.{GoesOnAfter, TakesTurn, TakesTurns, comes_to};
ghost use Rattle.std.specs.Prelude.{◌≡◌};

use crate::calls::{confirm, settle};
use crate::ended::Ended;
use crate::grants::{Confirm, Pending, Settle};
use crate::link::Link;

/// How often a grant is settled, at most.
const TURNS: u8 = 8;

/// What a confirm or a turn comes to.
pub(crate) enum Turned {
    /// It ends the run so.
    Over(Ended),
    /// It is still unknown what became of the grant.
    Unsure(Pending),
}

/// What a confirm comes to.
pub(crate) fn after_confirm(confirmed: Confirm) -> Turned
    ensures { result ≡ comes_to confirmed }
{
    match confirmed {
        Confirm::Done(number) => Turned::Over(Ended::Done(number)),
        Confirm::Expired => Turned::Over(Ended::Never),
        Confirm::Unsure(pending) => Turned::Unsure(pending),
    }
}

/// Goes on from a confirm: where it left the grant unsure, with at most 8 turns.
pub(crate) fn go_on<L: Link>(link: &mut L, first: Turned) -> Ended
    ensures { GoesOnAfter first result (L.state link.old) (L.state link.new) }
{
    match first {
        Turned::Over(ended) => ended,
        Turned::Unsure(pending) => take_turns(link, pending),
    }
}

fn take_turns<L: Link>(link: &mut L, first: Pending) -> Ended
    ensures { TakesTurns 8 first result (L.state link.old) (L.state link.new) }
{
    let mut pending = first;
    for _turn in 0..TURNS {
        pending = match take_turn(link, pending) {
            Turned::Over(ended) => return ended,
            Turned::Unsure(back) => back,
        };
    }
    let Pending { ticket, action: _ } = pending;
    Ended::Unsure(ticket)
}

/// Settles the grant, and confirms it again where its reservation is still open.
fn take_turn<L: Link>(link: &mut L, pending: Pending) -> Turned
    ensures { TakesTurn pending result (L.state link.old) (L.state link.new) }
{
    let ticket = pending.ticket;
    match settle(link, pending) {
        Settle::Done(number) => Turned::Over(Ended::Done(number)),
        Settle::Never => Turned::Over(Ended::Never),
        Settle::LeftOut => Turned::Over(Ended::LeftOut(ticket)),
        Settle::Open(granted) => after_confirm(confirm(link, granted)),
        Settle::Unsure(back) => Turned::Unsure(back),
    }
}
