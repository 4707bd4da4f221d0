//! How a run of the program ends: its status and its line.
ghost use Rattle.std.specs.Prelude.{◌≡◌, ◌≤◌, [], ◌++◌, length, decimal};
ghost use Rattle.arrayvec.specs.ArrayVec.{array_vec_len};
ghost use Rattle.ix_values.specs.Tickets.{ticket_text};
ghost use Rattle.ix_client.specs.Endings.{line_of, status_of};

use arrayvec::ArrayVec;
use ix_lines::{append, append_number};
use ix_values::Ticket;

/// How a run of the program ends.
#[derive(Clone, Copy)]
pub(crate) enum Ended {
    /// There are no words.
    Usage,
    /// The words name no ask.
    BadWords,
    /// The action is the one of this number of the history.
    Done(u64),
    /// The ask was refused with this code, 20 to 23.
    Refused(u8),
    /// The action isn't in the history, and never will be by its ticket.
    Never,
    /// The call of the ask failed.
    NoLink,
    /// The reply to the ask was none that an ask has.
    OddReply,
    /// The manager has no memory for the ask.
    NoMemory,
    /// It isn't known what became of this ticket.
    Unsure(Ticket),
    /// What became of this ticket is left out of the journal.
    LeftOut(Ticket),
}

impl Ended {
    /// The status of the program.
    pub(crate) fn status(self) -> u8
        ensures { result ≡ status_of self }
    {
        match self {
            Ended::Usage | Ended::Done(_) => 0,
            Ended::BadWords => 2,
            Ended::Refused(_) => 3,
            Ended::Never => 4,
            Ended::LeftOut(_) => 5,
            Ended::NoLink => 6,
            Ended::OddReply => 7,
            Ended::Unsure(_) => 8,
            Ended::NoMemory => 9,
        }
    }

    /// Writes the line, with the byte 10 that ends it, into `out`, which is empty.
    pub(crate) fn write(self, out: &mut ArrayVec<u8, 64>)
        requires { out.old.items ≡ [] }
        ensures { out.new.items ≡ line_of self }
    {
        match self {
            Ended::Usage => append(out, b"ixc SOCKET ACTION MILLIS"),
            Ended::BadWords => append(out, b"refused words"),
            Ended::Done(number) => write_number(out, b"done ", number),
            Ended::Refused(code) => write_number(out, b"refused ", u64::from(code)),
            Ended::Never => append(out, b"never"),
            Ended::NoLink => append(out, b"refused link"),
            Ended::OddReply => append(out, b"refused reply"),
            Ended::NoMemory => append(out, b"refused memory"),
            Ended::Unsure(ticket) => write_ticket(out, b"unsure ", ticket),
            Ended::LeftOut(ticket) => write_ticket(out, b"left out ", ticket),
        }
        out.push(b'\n');
    }
}

fn write_number(out: &mut ArrayVec<u8, 64>, word: &[u8], number: u64)
    requires empty { out.old.items ≡ [] }
    requires room { length word.now ≤ 16 }
    ensures text { out.new.items ≡ word.now ++ decimal number }
    ensures short { array_vec_len out.new ≤ 36 }
{
    append(out, word);
    append_number(out, number);
}

fn write_ticket(out: &mut ArrayVec<u8, 64>, word: &[u8], ticket: Ticket)
    requires empty { out.old.items ≡ [] }
    requires room { length word.now ≤ 16 }
    ensures text { out.new.items ≡ word.now ++ ticket_text ticket }
    ensures short { array_vec_len out.new ≤ 57 }
{
    let mut text = ArrayVec::<u8, 48>::new();
    ticket.write(&mut text);
    append(out, word);
    append(out, text.as_slice());
}
