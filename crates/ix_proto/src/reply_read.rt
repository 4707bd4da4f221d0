//! The reader of replies.

ghost use Rattle.std.specs.Prelude.{◌≡◌, ◌≢◌, ℕ, ◌<◌, ◌^◌, Some, List, ◌∷◌, ◌++◌, MatchOption};
ghost use Rattle.std.specs.Prelude.{Bool};
ghost use Rattle.std.specs.Fmt.{decimal};
ghost use Rattle.std.specs.Option.{option_copied};
ghost use Rattle.ix_lines.specs.Numbers.{IsNumber};
ghost use Rattle.ix_proto.specs.Replies.{IsOutcome, outcome_text, yes_or_no, complete_or_partial};
ghost use Rattle.ix_proto.specs.Replies.{IsReply, reply_text};
ghost use Rattle.ix_proto.specs.inside.ReplyTexts.{IsReplyText};
ghost use Rattle.ix_proto.specs.inside.ReplyParts.{kind_word, StandsBehind, IsRefusalBehind};
ghost use Rattle.ix_proto.specs.inside.ReplyParts.{nodes_text};

use crate::reply::{Outcome, Reply, has_number, refusal_text};
use ix_lines::{number_and, read_number, split_word};
use ix_values::{Action, Ticket};

/// The greatest number that a code has.
const GREATEST_CODE: u64 = 255;

/// The first word of a reply.
#[derive(Clone, Copy)]
pub(crate) enum Kind {
    Granted,
    Confirmed,
    Cancelled,
    Outcome,
    Answer(bool),
    Watching,
    Dropped,
    Changes,
    Status,
    Entry,
    Stopping,
    Refused,
}

impl Reply {
    /// The reply of a line, which is given without its byte 10, or None where it isn't a reply's
    /// text. There is at most one. Takes no memory.
    pub fn read(line: &[u8]) -> Option<Reply>
        ensures { MatchOption result
            (¬ IsReplyText line.now)
            (λ reply. IsReply reply × (reply_text reply ≡ line.now)) }
    {
        let (word, rest) = split_word(line);
        match read_kind(word) {
            Some(kind) => read_behind(kind, rest),
            None => None,
        }
    }
}

fn read_kind(word: &[u8]) -> Option<Kind>
    ensures { MatchOption result
        ((kind : Kind) → word.now ≢ kind_word kind)
        (λ kind. word.now ≡ kind_word kind) }
{
    match word {
        b"granted" => Some(Kind::Granted),
        b"confirmed" => Some(Kind::Confirmed),
        b"cancelled" => Some(Kind::Cancelled),
        b"outcome" => Some(Kind::Outcome),
        b"yes" => Some(Kind::Answer(true)),
        b"no" => Some(Kind::Answer(false)),
        b"watching" => Some(Kind::Watching),
        b"dropped" => Some(Kind::Dropped),
        b"changes" => Some(Kind::Changes),
        b"status" => Some(Kind::Status),
        b"entry" => Some(Kind::Entry),
        b"stopping" => Some(Kind::Stopping),
        b"refused" => Some(Kind::Refused),
        _ => None,
    }
}

fn read_behind(kind: Kind, rest: Option<&[u8]>) -> Option<Reply>
    ensures { MatchOption result
        ((reply : Reply) → ¬ StandsBehind kind (option_copied rest.entry) reply)
        (StandsBehind kind (option_copied rest.entry)) }
{
    match kind {
        Kind::Granted => Some(Reply::Granted(Ticket::read(rest?)?)),
        Kind::Confirmed => Some(Reply::Confirmed(read_number(rest?, u64::MAX)?)),
        Kind::Cancelled => Some(Reply::Cancelled(Ticket::read(rest?)?)),
        Kind::Outcome => Some(Reply::Outcome(outcome_of(rest?)?)),
        Kind::Answer(answer) => read_answer(answer, rest),
        Kind::Watching => Some(Reply::Watching(yes_or_no_text(rest?)?)),
        Kind::Dropped => match rest {
            None => Some(Reply::Dropped),
            Some(_) => None,
        },
        Kind::Changes => Some(Reply::Changes(count_of(rest?)?)),
        Kind::Status => read_status(rest?),
        Kind::Entry => read_entry(rest?),
        Kind::Stopping => match rest {
            None => Some(Reply::Stopping),
            Some(_) => None,
        },
        Kind::Refused => read_refused(rest?),
    }
}

fn read_answer(answer: bool, rest: Option<&[u8]>) -> Option<Reply>
    ensures { MatchOption result
        ((reply : Reply) → ¬ StandsBehind (Kind.Answer answer) (option_copied rest.entry) reply)
        (StandsBehind (Kind.Answer answer) (option_copied rest.entry)) }
{
    match rest {
        None => Some(Reply::May(answer)),
        Some(text) => match Action::read(text) {
            Ok(action) => Some(Reply::Change(answer, action)),
            Err(_) => None,
        },
    }
}

fn count_of(text: &[u8]) -> Option<u32>
    ensures { MatchOption result
        ((number : ℕ) → ¬ IsNumber (2 ^ 32) text.now number)
        (IsNumber (2 ^ 32) text.now) }
{
    Some(read_number(text, u64::from(u32::MAX))? as u32)
}

fn read_status(text: &[u8]) -> Option<Reply>
    ensures { MatchOption result
        ((reply : Reply) → ¬ StandsBehind Kind.Status (Some text.now) reply)
        (StandsBehind Kind.Status (Some text.now)) }
{
    let (complete, text) = complete_or_partial_and(text)?;
    let length = number_and(text, u64::MAX)?;
    let nodes = nodes(length.rest)?;
    Some(Reply::Status {
        complete,
        length: length.number,
        nodes,
    })
}

fn read_entry(text: &[u8]) -> Option<Reply>
    ensures { MatchOption result
        ((reply : Reply) → ¬ StandsBehind Kind.Entry (Some text.now) reply)
        (StandsBehind Kind.Entry (Some text.now)) }
{
    let place = number_and(text, u64::MAX)?;
    match Action::read(place.rest) {
        Ok(action) => Some(Reply::Entry(place.number, action)),
        Err(_) => None,
    }
}

fn read_refused(text: &[u8]) -> Option<Reply>
    ensures { MatchOption result
        ((reply : Reply) → ¬ StandsBehind Kind.Refused (Some text.now) reply)
        (StandsBehind Kind.Refused (Some text.now)) }
{
    let refusal = number_and(text, GREATEST_CODE)?;
    let code = refusal.number as u8;
    let number = refusal_number(code, refusal.rest)?;
    Some(Reply::Refused { code, number })
}

fn outcome_of(text: &[u8]) -> Option<Outcome>
    ensures { MatchOption result
        ((outcome : Outcome) → IsOutcome outcome → text.now ≢ outcome_text outcome)
        (λ outcome. IsOutcome outcome × (text.now ≡ outcome_text outcome)) }
{
    match text {
        b"open" => Some(Outcome::Waiting),
        b"never" => Some(Outcome::Never),
        _ => confirmed_of(text),
    }
}

fn confirmed_of(text: &[u8]) -> Option<Outcome>
    ensures { MatchOption result
        ((place : ℕ) → place < 2 ^ 64 → text.now ≢ outcome_text (Outcome.Confirmed place))
        (λ outcome. IsOutcome outcome × (text.now ≡ outcome_text outcome)) }
{
    let place = read_number(strip(text, b"confirmed ")?, u64::MAX)?;
    Some(Outcome::Confirmed(place))
}

fn yes_or_no_text(text: &[u8]) -> Option<bool>
    ensures { MatchOption result
        ((answer : Bool) → text.now ≢ yes_or_no answer)
        (λ answer. text.now ≡ yes_or_no answer) }
{
    match text {
        b"yes" => Some(true),
        b"no" => Some(false),
        _ => None,
    }
}

fn complete_or_partial_and(text: &[u8]) -> Option<(bool, &[u8])>
    ensures { MatchOption result
        ((complete : Bool) (tail : List ℕ) → text.now ≢ complete_or_partial complete ++ 32 ∷ tail)
        (λ read. text.now ≡ complete_or_partial read.0 ++ 32 ∷ read.1.now) }
{
    match strip(text, b"complete ") {
        Some(tail) => Some((true, tail)),
        None => match strip(text, b"partial ") {
            Some(tail) => Some((false, tail)),
            None => None,
        },
    }
}

fn nodes(text: &[u8]) -> Option<u64>
    ensures { MatchOption result
        ((number : ℕ) → number < 2 ^ 64 → text.now ≢ nodes_text number)
        (λ number. (number < 2 ^ 64) × (text.now ≡ nodes_text number)) }
{
    read_number(strip(text, b"nodes ")?, u64::MAX)
}

/// The number of a refusal of this code, 0 where its text has none.
fn refusal_number(code: u8, text: &[u8]) -> Option<u64>
    ensures { MatchOption result
        ((number : ℕ) → ¬ IsRefusalBehind code text.now number)
        (IsRefusalBehind code text.now) }
{
    let rest = strip(text, refusal_text(code)?)?;
    if has_number(code) {
        number_behind(rest)
    } else if rest.is_empty() {
        Some(0)
    } else {
        None
    }
}

/// The number behind a space.
fn number_behind(text: &[u8]) -> Option<u64>
    ensures { MatchOption result
        ((number : ℕ) → number < 2 ^ 64 → text.now ≢ 32 ∷ decimal number)
        (λ number. (number < 2 ^ 64) × (text.now ≡ 32 ∷ decimal number)) }
{
    match text {
        [b' ', number @ ..] => read_number(number, u64::MAX),
        _ => None,
    }
}

fn strip<'a>(text: &'a [u8], front: &[u8]) -> Option<&'a [u8]>
    ensures { MatchOption result
        ((tail : List ℕ) → text.now ≢ front.now ++ tail)
        (λ tail. text.now ≡ front.now ++ tail.now) }
{
    text.strip_prefix(front)
}
