//! The printer of requests.

ghost use Rattle.std.specs.Prelude.{◌≡◌, ◌≤◌, ◌+◌, ◌∷◌, ◌++◌, [], codes, length};
ghost use Rattle.std.specs.Fmt.{decimal};
ghost use Rattle.arrayvec.specs.ArrayVec.{array_vec_len};
ghost use Rattle.ix_values.specs.Tickets.{IsTicket, ticket_text};
ghost use Rattle.ix_proto.specs.Requests.{PlainRequest};
ghost use Rattle.ix_proto.specs.inside.Lends.{LendsRequest};
ghost use Rattle.ix_proto.specs.inside.RequestTexts.{request_text, HasShortTexts, HasSoundNumbers};

use crate::reply::{write_number, write_ticket};
use crate::request::Request;
use arrayvec::ArrayVec;
use ix_lines::{append, append_number};

impl Request<'_> {
    /// Writes the line of the request without its byte 10, at most 204 bytes, into `out`, which is
    /// empty. Its texts are no longer than an action's and a name's. Takes no memory.
    pub fn write(&self, out: &mut ArrayVec<u8, 256>)
        requires empty { out.old.items ≡ [] }
        requires short { HasShortTexts self.now }
        ensures text { (plain : PlainRequest)
            → LendsRequest self.now plain → out.new.items ≡ request_text plain }
        ensures short { array_vec_len out.new ≤ 204 }
        ensures valid { HasSoundNumbers self.now }
    {
        match *self {
            Request::Ask { action, lease } => write_ask(out, action, lease),
            Request::Confirm(ticket) => write_ticket(out, b"confirm ", &ticket),
            Request::Cancel(ticket) => write_ticket(out, b"cancel ", &ticket),
            Request::Outcome(ticket) => write_ticket(out, b"outcome ", &ticket),
            Request::May(action) => write_word(out, b"may ", action),
            Request::Watch { name, action } => write_words(out, b"watch ", name, action),
            Request::Drop { name, action } => write_words(out, b"drop ", name, action),
            Request::Poll(name) => write_word(out, b"poll ", name),
            Request::Status => append(out, b"status"),
            Request::Log(number) => write_number(out, b"log ", number),
            Request::Stop => append(out, b"stop"),
        }
    }
}

fn write_ask(out: &mut ArrayVec<u8, 256>, action: &[u8], lease: u32)
    requires empty { out.old.items ≡ [] }
    requires room { length action.now ≤ 165 }
    ensures text { out.new.items ≡ codes "ask " ++ (action.now ++ 32 ∷ decimal lease) }
    ensures short { array_vec_len out.new ≤ 190 }
{
    write_word(out, b"ask ", action);
    out.push(b' ');
    append_number(out, u64::from(lease));
}

fn write_word(out: &mut ArrayVec<u8, 256>, verb: &[u8], word: &[u8])
    requires empty { out.old.items ≡ [] }
    requires room { length verb.now + length word.now ≤ 204 }
    ensures text { out.new.items ≡ verb.now ++ word.now }
    ensures short { array_vec_len out.new ≡ length verb.now + length word.now }
{
    append(out, verb);
    append(out, word);
}

fn write_words(out: &mut ArrayVec<u8, 256>, verb: &[u8], first: &[u8], second: &[u8])
    requires empty { out.old.items ≡ [] }
    requires room { length verb.now + length first.now + length second.now ≤ 203 }
    ensures text { out.new.items ≡ verb.now ++ (first.now ++ 32 ∷ second.now) }
    ensures short { array_vec_len out.new ≤ 204 }
{
    write_word(out, verb, first);
    out.push(b' ');
    append(out, second);
}
