//! The reader of requests.

ghost use Rattle.std.specs.Prelude.{◌≡◌, ◌≢◌, ◌⊎◌, [], ◌∷◌, length, MatchOption};
ghost use Rattle.std.specs.Prelude.{MatchResult, IsTrue};
ghost use Rattle.std.specs.Fmt.{decimal};
ghost use Rattle.std.specs.Option.{option_copied};
ghost use Rattle.ix_values.specs.Faults.{IsActionText};
ghost use Rattle.ix_values.specs.Texts.{IsName};
ghost use Rattle.ix_values.specs.Tickets.{IsTicket, ticket_text};
ghost use Rattle.ix_lines.specs.Numbers.{IsNumber};
ghost use Rattle.ix_proto.specs.inside.Causes.{cause_code};
ghost use Rattle.ix_proto.specs.inside.Lends.{Reads};
ghost use Rattle.ix_proto.specs.Requests.{IsLease};
ghost use Rattle.ix_proto.specs.RequestFaults.{an_action, a_name, a_ticket, a_number, a_lease};
ghost use Rattle.ix_proto.specs.RequestFaults.{verb_word, parts_of, IsPartFault};
ghost use Rattle.ix_proto.specs.RequestFaults.{IsFaultBehind, IsRequestFault};
ghost use Rattle.ix_lines.specs.Words.{words_of};
ghost use Rattle.ix_lines.specs.inside.WordsBehind.{words_behind};

use crate::parts::{
    action_word, lease_word, name_and_action, name_word, no_words, number_word, one_word,
    ticket_word, two_words,
};
use crate::request_fault::{Cause, RequestFault};
use ix_lines::split_word;
use ix_values::Ticket;

/// A request. Its texts are words of the line that it was read from: each `action` is an action's
/// text, and each `name` a name.
#[derive(Clone, Copy, Debug, PartialEq, Eq)]
pub enum Request<'a> {
    /// May this action be done? If so it is reserved for `lease` milliseconds, 1 to 86400000.
    Ask { action: &'a [u8], lease: u32 },
    /// The action of this ticket was done.
    Confirm(Ticket),
    /// The action of this ticket won't be done.
    Cancel(Ticket),
    /// What became of this ticket?
    Outcome(Ticket),
    /// Is this action permitted now?
    May(&'a [u8]),
    /// Watch this action under this name.
    Watch { name: &'a [u8], action: &'a [u8] },
    /// Watch this action under this name no longer.
    Drop { name: &'a [u8], action: &'a [u8] },
    /// What has changed for the watches of this name?
    Poll(&'a [u8]),
    Status,
    /// Which action is the one of this number, counted from 1?
    Log(u64),
    Stop,
}

/// The first word of a request.
#[derive(Clone, Copy)]
pub(crate) enum Verb {
    Ask,
    Confirm,
    Cancel,
    Outcome,
    May,
    Watch,
    Drop,
    Poll,
    Status,
    Log,
    Stop,
}

impl<'a> Request<'a> {
    /// The request of a line, which is given without its byte 10, or its first
    /// fault. Takes no memory.
    pub fn read(line: &'a [u8]) -> Result<Request<'a>, RequestFault>
        ensures { MatchResult result
            (λ request. Reads (words_of line.now) request)
            (λ fault. IsRequestFault (words_of line.now) fault.code) }
    {
        match read_line(line) {
            Ok(request) => Ok(request),
            Err(cause) => Err(RequestFault { code: cause.code() }),
        }
    }
}

/// The request of a line, which is given without its byte 10, or the cause of its first fault.
fn read_line(line: &[u8]) -> Result<Request<'_>, Cause>
    ensures { MatchResult result
        (λ request. Reads (words_of line.now) request)
        (λ cause. IsRequestFault (words_of line.now) (cause_code cause)) }
{
    let (word, rest) = split_word(line);
    match read_verb(word) {
        Some(verb) => read_behind(verb, rest),
        None => Err(Cause::UnknownRequest),
    }
}

fn read_behind(verb: Verb, rest: Option<&[u8]>) -> Result<Request<'_>, Cause>
    ensures { MatchResult result
        (λ request. Reads (verb_word verb ∷ words_behind (option_copied rest.entry)) request)
        (λ cause. IsFaultBehind (parts_of verb)
        (words_behind (option_copied rest.entry)) (cause_code cause)) }
{
    match verb {
        Verb::Ask => {
            let (action, lease) = two_words(rest)?;
            let action = action_word(action)?;
            let lease = lease_word(lease)?;
            Ok(Request::Ask { action, lease })
        }
        Verb::Confirm => Ok(Request::Confirm(ticket_word(one_word(rest)?)?)),
        Verb::Cancel => Ok(Request::Cancel(ticket_word(one_word(rest)?)?)),
        Verb::Outcome => Ok(Request::Outcome(ticket_word(one_word(rest)?)?)),
        Verb::May => Ok(Request::May(action_word(one_word(rest)?)?)),
        Verb::Watch => {
            let (name, action) = name_and_action(rest)?;
            Ok(Request::Watch { name, action })
        }
        Verb::Drop => {
            let (name, action) = name_and_action(rest)?;
            Ok(Request::Drop { name, action })
        }
        Verb::Poll => Ok(Request::Poll(name_word(one_word(rest)?)?)),
        Verb::Status => {
            no_words(rest)?;
            Ok(Request::Status)
        }
        Verb::Log => Ok(Request::Log(number_word(one_word(rest)?)?)),
        Verb::Stop => {
            no_words(rest)?;
            Ok(Request::Stop)
        }
    }
}

fn read_verb(word: &[u8]) -> Option<Verb>
    ensures { MatchOption result
        ((verb : Verb) → word.now ≢ verb_word verb)
        (λ verb. word.now ≡ verb_word verb) }
{
    match word {
        b"ask" => Some(Verb::Ask),
        b"confirm" => Some(Verb::Confirm),
        b"cancel" => Some(Verb::Cancel),
        b"outcome" => Some(Verb::Outcome),
        b"may" => Some(Verb::May),
        b"watch" => Some(Verb::Watch),
        b"drop" => Some(Verb::Drop),
        b"poll" => Some(Verb::Poll),
        b"status" => Some(Verb::Status),
        b"log" => Some(Verb::Log),
        b"stop" => Some(Verb::Stop),
        _ => None,
    }
}
