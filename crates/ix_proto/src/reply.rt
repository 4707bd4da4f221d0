//! Replies, and their printer.

ghost use Rattle.std.specs.Prelude.{ℕ, List, Some, ◌≡◌, ◌+◌, ◌<◌, ◌≤◌, ◌^◌, [], ◌∷◌, ◌++◌, IsSome};
ghost use Rattle.std.specs.Prelude.{codes, length};
ghost use Rattle.std.specs.Fmt.{decimal};
ghost use Rattle.std.specs.Option.{option_copied};
ghost use Rattle.arrayvec.specs.ArrayVec.{array_vec_len};
ghost use Rattle.ix_values.specs.PlainAction.{text_of};
ghost use Rattle.ix_values.specs.Texts.{IsAction};
ghost use Rattle.ix_values.specs.Tickets.{IsTicket, ticket_text};
ghost use Rattle.ix_proto.specs.Replies as spec;
ghost use Rattle.ix_proto.specs.inside.ReplyTexts.{CanBeTold};

use arrayvec::ArrayVec;
use ix_lines::{append, append_number};
use ix_values::{Action, Ticket};

/// What became of a ticket.
#[derive(Clone, Copy, Debug, PartialEq, Eq)]
pub enum Outcome {
    /// It was confirmed: its action is the one of this place of the history, counted from 1.
    Confirmed(u64),
    /// Its reservation is open, and may be confirmed or cancelled.
    Waiting,
    /// It wasn't confirmed, and no confirm of it can succeed any more.
    Never,
}

/// What a manager answers on a connection, each as one line. A `Changes` is followed by as
/// many lines of `Change`.
#[derive(Clone, Copy, Debug, PartialEq, Eq)]
pub enum Reply {
    /// The action is reserved under this ticket.
    Granted(Ticket),
    /// The action of the ticket was appended to the history, which has this length now.
    Confirmed(u64),
    /// The reservation of this ticket is cancelled.
    Cancelled(Ticket),
    /// What became of the ticket that was asked for.
    Outcome(Outcome),
    /// Whether the action is permitted.
    May(bool),
    /// The action is watched, and whether it is allowed now.
    Watching(bool),
    /// The action is watched no longer.
    Dropped,
    /// How many changes follow.
    Changes(u32),
    /// Whether the watched action is allowed now.
    Change(bool, Action),
    /// Whether the history is complete, its length, and the nodes of its tree.
    Status {
        complete: bool,
        length: u64,
        nodes: u64,
    },
    /// The action of this place of the history, counted from 1.
    Entry(u64, Action),
    /// The run ends.
    Stopping,
    /// A refusal. The number is the kept deadline for code 20, the node limit for
    /// code 22, and else 0.
    Refused {
        code: u8,
        number: u64,
    },
}

impl Reply {
    /// Writes the line of the reply with its byte 10, at most 256 bytes, into `out`, which is
    /// empty. The code of a refusal is one of the table, and its number is 0 where the code is
    /// neither 20 nor 22. Takes no memory.
    pub fn write(&self, out: &mut ArrayVec<u8, 256>)
        requires empty { out.old.items ≡ [] }
        requires told { CanBeTold self.now }
        ensures text { out.new.items ≡ spec.reply_text self.now ++ 10 ∷ [] }
        ensures short { array_vec_len out.new ≤ 256 }
        ensures valid { spec.IsReply self.now }
    {
        self.write_text(out);
        out.push(b'\n');
    }

    fn write_text(&self, out: &mut ArrayVec<u8, 256>)
        requires empty { out.old.items ≡ [] }
        requires told { CanBeTold self.now }
        ensures text { out.new.items ≡ spec.reply_text self.now }
        ensures short { array_vec_len out.new ≤ 255 }
        ensures valid { spec.IsReply self.now }
    {
        match self {
            Reply::Granted(ticket) => write_ticket(out, b"granted ", ticket),
            Reply::Confirmed(length) => write_number(out, b"confirmed ", *length),
            Reply::Cancelled(ticket) => write_ticket(out, b"cancelled ", ticket),
            Reply::Outcome(outcome) => write_outcome(out, *outcome),
            Reply::May(answer) => append(out, yes_or_no(*answer)),
            Reply::Watching(answer) => write_watching(out, *answer),
            Reply::Dropped => append(out, b"dropped"),
            Reply::Changes(count) => write_number(out, b"changes ", u64::from(*count)),
            Reply::Change(answer, action) => write_change(out, *answer, action),
            Reply::Status {
                complete,
                length,
                nodes,
            } => write_status(out, *complete, *length, *nodes),
            Reply::Entry(place, action) => write_entry(out, *place, action),
            Reply::Stopping => append(out, b"stopping"),
            Reply::Refused { code, number } => write_refusal(out, *code, *number),
        }
    }
}

pub(crate) fn write_number(out: &mut ArrayVec<u8, 256>, word: &[u8], number: u64)
    requires empty { out.old.items ≡ [] }
    requires room { length word.now ≤ 16 }
    ensures text { out.new.items ≡ word.now ++ decimal number }
    ensures short { array_vec_len out.new ≤ 36 }
    ensures fits { number < 2 ^ 64 }
{
    append(out, word);
    append_number(out, number);
}

pub(crate) fn write_ticket(out: &mut ArrayVec<u8, 256>, word: &[u8], ticket: &Ticket)
    requires empty { out.old.items ≡ [] }
    requires room { length word.now ≤ 16 }
    ensures text { out.new.items ≡ word.now ++ ticket_text ticket.now }
    ensures short { array_vec_len out.new ≤ 57 }
    ensures valid { IsTicket ticket.now }
{
    let mut text = ArrayVec::<u8, 48>::new();
    ticket.write(&mut text);
    append(out, word);
    append(out, text.as_slice());
}

fn write_outcome(out: &mut ArrayVec<u8, 256>, outcome: Outcome)
    requires { out.old.items ≡ [] }
    ensures text { out.new.items ≡ codes "outcome " ++ spec.outcome_text outcome }
    ensures short { array_vec_len out.new ≤ 38 }
    ensures valid { spec.IsOutcome outcome }
{
    append(out, b"outcome ");
    match outcome {
        Outcome::Confirmed(place) => {
            append(out, b"confirmed ");
            append_number(out, place);
        }
        Outcome::Waiting => append(out, b"open"),
        Outcome::Never => append(out, b"never"),
    }
}

fn write_watching(out: &mut ArrayVec<u8, 256>, answer: bool)
    requires { out.old.items ≡ [] }
    ensures text { out.new.items ≡ codes "watching " ++ spec.yes_or_no answer }
    ensures short { array_vec_len out.new ≤ 12 }
{
    append(out, b"watching ");
    append(out, yes_or_no(answer));
}

fn write_change(out: &mut ArrayVec<u8, 256>, answer: bool, action: &Action)
    requires { out.old.items ≡ [] }
    ensures text { out.new.items ≡ spec.yes_or_no answer ++ 32 ∷ text_of action.now }
    ensures short { array_vec_len out.new ≤ 169 }
    ensures valid { IsAction action.now }
{
    append(out, yes_or_no(answer));
    out.push(b' ');
    append_action(out, action);
}

fn write_status(out: &mut ArrayVec<u8, 256>, complete: bool, length: u64, nodes: u64)
    requires { out.old.items ≡ [] }
    ensures text { out.new.items
        ≡ codes "status "
        ++ (spec.complete_or_partial complete
        ++ 32 ∷ (decimal length ++ 32 ∷ (codes "nodes " ++ decimal nodes))) }
    ensures short { array_vec_len out.new ≤ 80 }
    ensures fits { (length < 2 ^ 64) × (nodes < 2 ^ 64) }
{
    append(out, b"status ");
    append(out, complete_or_partial(complete));
    out.push(b' ');
    append_number(out, length);
    append(out, b" nodes ");
    append_number(out, nodes);
}

fn write_entry(out: &mut ArrayVec<u8, 256>, place: u64, action: &Action)
    requires { out.old.items ≡ [] }
    ensures text { out.new.items ≡ codes "entry " ++ (decimal place ++ 32 ∷ text_of action.now) }
    ensures short { array_vec_len out.new ≤ 192 }
    ensures valid { (place < 2 ^ 64) × IsAction action.now }
{
    append(out, b"entry ");
    append_number(out, place);
    out.push(b' ');
    append_action(out, action);
}

fn write_refusal(out: &mut ArrayVec<u8, 256>, code: u8, number: u64)
    requires { out.old.items ≡ [] }
    ensures text { out.new.items
        ≡ codes "refused "
        ++ (decimal code
        ++ 32 ∷ spec.with_number (spec.has_number code) (spec.refusal_text code) number) }
    ensures short { array_vec_len out.new ≤ 80 }
    ensures fits { (code < 2 ^ 8) × (number < 2 ^ 64) }
{
    append(out, b"refused ");
    append_number(out, u64::from(code));
    out.push(b' ');
    append_refusal(out, code, number);
}

fn append_refusal(out: &mut ArrayVec<u8, 256>, code: u8, number: u64)
    requires room { array_vec_len out.old ≤ 36 }
    ensures items { out.new.items
        ≡ out.old.items ++ spec.with_number (spec.has_number code) (spec.refusal_text code) number }
    ensures len { array_vec_len out.new ≤ array_vec_len out.old + 40 }
    ensures fits { number < 2 ^ 64 }
{
    let Some(text) = refusal_text(code) else {
        return;
    };
    append(out, text);
    if has_number(code) {
        out.push(b' ');
        append_number(out, number);
    }
}

/// The text of a refusal's code, in front of its number where it has one.
pub(crate) fn refusal_text(code: u8) -> Option<&'static [u8]>
    ensures text { option_copied result ≡ spec.refusal_text code }
    ensures short { (text : List ℕ) → spec.refusal_text code ≡ Some text → length text ≤ 16 }
{
    match code {
        10 => Some(b"line too long"),
        11 => Some(b"word"),
        12 => Some(b"action"),
        13 => Some(b"number"),
        14 => Some(b"lease"),
        15 => Some(b"words"),
        16 => Some(b"name"),
        20 => Some(b"busy until"),
        21 => Some(b"not permitted"),
        22 => Some(b"large"),
        23 => Some(b"full"),
        30 => Some(b"no such ticket"),
        31 => Some(b"expired"),
        32 | 33 => Some(b"left out"),
        40 => Some(b"watches full"),
        41 => Some(b"no such watch"),
        42 => Some(b"no such entry"),
        90 => Some(b"memory"),
        91 => Some(b"disk"),
        _ => None,
    }
}

pub(crate) fn has_number(code: u8) -> bool
    ensures { result ≡ spec.has_number code }
{
    code == 20 || code == 22
}

fn yes_or_no(answer: bool) -> &'static [u8]
    ensures text { result.now ≡ spec.yes_or_no answer }
    ensures short { length result.now ≤ 3 }
{
    if answer { b"yes" } else { b"no" }
}

fn complete_or_partial(complete: bool) -> &'static [u8]
    ensures text { result.now ≡ spec.complete_or_partial complete }
    ensures short { length result.now ≤ 8 }
{
    if complete { b"complete" } else { b"partial" }
}

fn append_action(out: &mut ArrayVec<u8, 256>, action: &Action)
    requires { array_vec_len out.old ≤ 91 }
    ensures items { out.new.items ≡ out.old.items ++ text_of action.now }
    ensures len { array_vec_len out.new ≤ array_vec_len out.old + 165 }
    ensures valid { IsAction action.now }
{
    let mut text = ArrayVec::<u8, 168>::new();
    action.write(&mut text);
    append(out, text.as_slice());
}
