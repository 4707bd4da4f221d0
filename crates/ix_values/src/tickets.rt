//! Tickets: what a granted ask is known by, in the run that granted it and behind its end.

ghost use Rattle.std.specs.Prelude.{◌≡◌, ◌≤◌, ◌==◌, [], MatchOption, position};
ghost use Rattle.arrayvec.specs.ArrayVec.{array_vec_len};
ghost use Rattle.ix_values.specs.Laws.{TextsTellTicketsApart};
ghost use Rattle.ix_values.specs.Tickets.{IsTicket, IsTicketText, ticket_text};

use arrayvec::ArrayVec;
use ix_lines::{append_number, read_number};

/// What a granted ask is known by.
#[derive(Clone, Copy, Debug, PartialEq, Eq)]
pub struct Ticket {
    /// The boot that granted it: how many times the journal had been opened then, from 1.
    pub boot: u64,
    /// The number of the ticket among those of its boot, from 1.
    pub seq: u64,
}

impl Ticket {
    /// The ticket whose text is `text`: its two numbers in decimal, without leading zeros, joined
    /// by `-`. There is at most one. None where the text isn't a ticket's. Takes no memory.
    pub fn read(text: &[u8]) -> Option<Ticket>
        ensures { MatchOption result
            (¬ IsTicketText text.now)
            (λ ticket. IsTicket ticket × (text.now ≡ ticket_text ticket)) }
    {
        let at = first_dash(text)?;
        let boot = read_number(&text[..at], u64::MAX)?;
        let seq = read_number(&text[at + 1..], u64::MAX)?;
        Some(Ticket { boot, seq })
    }

    /// Writes the text of the ticket, at most 41 bytes, into `out`, which is empty.
    pub fn write(&self, out: &mut ArrayVec<u8, 48>)
        requires { out.old.items ≡ [] }
        ensures text { out.new.items ≡ ticket_text self.now }
        ensures short { array_vec_len out.new ≤ 41 }
        ensures valid { IsTicket self.now }
    {
        append_number(out, self.boot);
        out.push(b'-');
        append_number(out, self.seq);
    }
}

fn first_dash(text: &[u8]) -> Option<usize>
    ensures { result ≡ position (λ byte. byte == 45) text.now }
{
    text.iter().position(|byte| *byte == b'-')
}

/// Two tickets with one text are the same ticket.
pub fn texts_tell_tickets_apart()
    ensures { TextsTellTicketsApart }
{}
