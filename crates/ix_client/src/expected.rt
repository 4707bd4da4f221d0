//! Which replies to a request are expected.
ghost use Rattle.std.specs.Prelude.{◌≡◌, true};
ghost use Rattle.ix_proto.specs.Requests.{PlainRequest};
ghost use Rattle.ix_proto.specs.inside.Lends.{LendsRequest};
ghost use Rattle.ix_client.specs.Links.{IsExpected, IsLineOf, IsLineWith};

use crate::calls::LEFT_OUT;
use ix_proto::laws::{faults_tell_no_request, texts_tell_replies_apart};
use ix_proto::{Reply, Request};
use ix_values::texts_tell_tickets_apart;

/// Whether a line is an expected reply to the request of another, which is given with its byte 10:
/// to an ask a ticket or a refusal from 20 to 23, to a confirm the number of its action, to a
/// cancel its own ticket, and to an outcome what became of its ticket, or that this is left out.
pub fn is_expected(line: &[u8], reply: &[u8]) -> bool
    ensures only { result ≡ true → (asked : PlainRequest) → IsLineOf asked line.now
        → IsLineWith (IsExpected asked) reply.now }
    ensures all { (asked : PlainRequest) → IsLineOf asked line.now
        → IsLineWith (IsExpected asked) reply.now → result ≡ true }
{
    texts_tell_tickets_apart();
    texts_tell_replies_apart();
    faults_tell_no_request();
    let Some((_, words)) = line.split_last() else {
        return false;
    };
    let Ok(request) = Request::read(words) else {
        return false;
    };
    match Reply::read(reply) {
        Some(told) => answers(request, &told),
        None => false,
    }
}

/// Whether the reply is an expected one to the request.
fn answers(request: Request<'_>, told: &Reply) -> bool
    ensures only { result ≡ true → (asked : PlainRequest) → LendsRequest request.entry asked
        → IsExpected asked told.now }
    ensures all { (asked : PlainRequest) → LendsRequest request.entry asked
        → IsExpected asked told.now → result ≡ true }
{
    match (request, told) {
        (Request::Ask { .. }, Reply::Granted(_)) => true,
        (Request::Ask { .. }, Reply::Refused { code, .. }) => 20 <= *code && *code <= 23,
        (Request::Confirm(_), Reply::Confirmed(_)) => true,
        (Request::Cancel(ticket), Reply::Cancelled(told)) => ticket == *told,
        (Request::Outcome(_), Reply::Outcome(_)) => true,
        (Request::Outcome(_), Reply::Refused { code, .. }) => *code == LEFT_OUT,
        _ => false,
    }
}
