//! One request and what is heard of it.
ghost use Rattle.ix_proto.specs.Requests.{PlainRequest};
ghost use Rattle.ix_client.specs.Hearing.{Hears};
ghost use Rattle.ix_client.specs.Links.{IsCall, IsLineOf};

use crate::link::{Link, LinkFailed};
use arrayvec::ArrayVec;
use ix_proto::Reply;
use ix_proto::laws::texts_tell_replies_apart;

/// Sends the line of a request and reads what comes back: a reply, or None for a line that is none.
pub(crate) fn exchange<L: Link>(link: &mut L, line: &[u8]) -> Result<Option<Reply>, LinkFailed>
    requires { IsCall line.now }
    ensures { (asked : PlainRequest) → IsLineOf asked line.now
        → Hears asked result (L.state link.old) (L.state link.new) }
{
    texts_tell_replies_apart();
    let mut out = ArrayVec::<u8, 256>::new();
    match link.call(line, &mut out) {
        Ok(()) => Ok(Reply::read(out.as_slice())),
        Err(LinkFailed) => Err(LinkFailed),
    }
}
