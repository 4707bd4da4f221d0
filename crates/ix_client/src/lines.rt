//! The lines of the requests that a client makes, each with the byte 10 that ends it.
ghost use Rattle.std.specs.Prelude.{◌≡◌, [], ◌∷◌, ◌++◌};
ghost use Rattle.ix_proto.specs.Requests.{IsLease, PlainRequest};
ghost use Rattle.ix_proto.specs.Requests as request;
ghost use Rattle.ix_proto.specs.inside.Lends.{LendsRequest};
ghost use Rattle.ix_proto.specs.inside.RequestTexts.{request_text, HasShortTexts, HasSoundNumbers};
ghost use Rattle.ix_client.specs.Links.{IsCall, IsLineOf};

use arrayvec::ArrayVec;
use ix_proto::Request;
use ix_values::{Action, Ticket};

/// A line is at most 180 bytes long.
pub(crate) type Line = ArrayVec<u8, 256>;

/// The line of a call, for a link to keep.
#[tactic(auto, using(crate::proofs::ShortLines::call_short))]
pub fn keep_line(line: &[u8]) -> ArrayVec<u8, 256>
    requires { IsCall line.now }
    ensures { result.items ≡ line.now }
{
    ArrayVec::try_from(line).unwrap_or(ArrayVec::new())
}

pub(crate) fn ask_line(action: &Action, lease: u32) -> Line
    requires { IsLease lease }
    ensures { IsLineOf (request.ask action.now lease) result.items }
{
    let mut text = ArrayVec::<u8, 168>::new();
    action.write(&mut text);
    request_line(Request::Ask {
        action: text.as_slice(),
        lease,
    })
}

pub(crate) fn confirm_line(ticket: Ticket) -> Line
    ensures { IsLineOf (request.confirm ticket) result.items }
{
    request_line(Request::Confirm(ticket))
}

pub(crate) fn cancel_line(ticket: Ticket) -> Line
    ensures { IsLineOf (request.cancel ticket) result.items }
{
    request_line(Request::Cancel(ticket))
}

pub(crate) fn outcome_line(ticket: Ticket) -> Line
    ensures { IsLineOf (request.outcome ticket) result.items }
{
    request_line(Request::Outcome(ticket))
}

fn request_line(asked: Request<'_>) -> Line
    requires { HasShortTexts asked }
    ensures text { (plain : PlainRequest)
        → LendsRequest asked.entry plain → result.items ≡ request_text plain ++ 10 ∷ [] }
    ensures valid { HasSoundNumbers asked.entry }
{
    let mut line = Line::new();
    asked.write(&mut line);
    line.push(b'\n');
    line
}
