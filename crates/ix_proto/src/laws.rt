//! Laws of requests and replies.

ghost use Rattle.ix_proto.specs.Replies.{TextsTellRepliesApart};
ghost use Rattle.ix_proto.specs.RequestLaws.{FaultsTellNoRequest, RequestLinesHaveOneFault};

use ix_values::texts_tell_tickets_apart;

/// Two replies with one text are the same reply, so a text that is written reads back as its reply.
pub fn texts_tell_replies_apart()
    ensures { TextsTellRepliesApart }
{
    texts_tell_tickets_apart();
}

/// No request's line has a fault.
pub fn faults_tell_no_request()
    ensures { FaultsTellNoRequest }
{}

/// A request line has at most one fault code.
pub fn request_lines_have_one_fault()
    ensures { RequestLinesHaveOneFault }
{}
