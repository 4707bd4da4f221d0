//! The words behind a request's first word.

ghost use Rattle.std.specs.Prelude.{◌≡◌, ◌≢◌, ◌^◌, [], ◌∷◌, length, MatchResult};
ghost use Rattle.std.specs.Option.{option_copied};
ghost use Rattle.ix_values.specs.Faults.{IsActionText};
ghost use Rattle.ix_values.specs.Texts.{IsName};
ghost use Rattle.ix_values.specs.Tickets.{IsTicket, ticket_text};
ghost use Rattle.ix_lines.specs.Numbers.{IsNumber};
ghost use Rattle.ix_proto.specs.inside.Causes.{cause_code};
ghost use Rattle.ix_proto.specs.Requests.{IsLease};
ghost use Rattle.ix_proto.specs.RequestFaults.{an_action, a_name, a_ticket, a_number, a_lease};
ghost use Rattle.ix_proto.specs.RequestFaults.{IsPartFault, IsFaultBehind};
ghost use Rattle.ix_lines.specs.inside.WordsBehind.{words_behind};

use crate::request_fault::Cause;
use ix_lines::{read_number, split_word};
use ix_values::{Action, Name, Ticket};

/// The longest lease, in milliseconds.
const LONGEST_LEASE: u64 = 86_400_000;

pub(crate) fn no_words(rest: Option<&[u8]>) -> Result<(), Cause>
    ensures { MatchResult result
        (λ _. words_behind (option_copied rest.entry) ≡ [])
        (λ cause. (length (words_behind (option_copied rest.entry)) ≢ 0)
        × (cause_code cause ≡ 15)) }
{
    match rest {
        None => Ok(()),
        Some(text) => {
            let _words = split_word(text);
            Err(Cause::WordCount)
        }
    }
}

pub(crate) fn one_word(rest: Option<&[u8]>) -> Result<&[u8], Cause>
    ensures { MatchResult result
        (λ word. words_behind (option_copied rest.entry) ≡ word.now ∷ [])
        (λ cause. (length (words_behind (option_copied rest.entry)) ≢ 1)
        × (cause_code cause ≡ 15)) }
{
    let Some(text) = rest else {
        return Err(Cause::WordCount);
    };
    let (word, behind) = split_word(text);
    no_words(behind)?;
    Ok(word)
}

pub(crate) fn two_words(rest: Option<&[u8]>) -> Result<(&[u8], &[u8]), Cause>
    ensures { MatchResult result
        (λ words. words_behind (option_copied rest.entry) ≡ words.0.now ∷ words.1.now ∷ [])
        (λ cause. (length (words_behind (option_copied rest.entry)) ≢ 2)
        × (cause_code cause ≡ 15)) }
{
    let Some(text) = rest else {
        return Err(Cause::WordCount);
    };
    let (first, behind) = split_word(text);
    let second = one_word(behind)?;
    Ok((first, second))
}

pub(crate) fn name_and_action(rest: Option<&[u8]>) -> Result<(&[u8], &[u8]), Cause>
    ensures { MatchResult result
        (λ read. (words_behind (option_copied rest.entry) ≡ read.0.now ∷ read.1.now ∷ [])
        × IsName read.0.now × IsActionText read.1.now)
        (λ cause. IsFaultBehind (a_name ∷ an_action ∷ [])
        (words_behind (option_copied rest.entry)) (cause_code cause)) }
{
    let (name, action) = two_words(rest)?;
    let name = name_word(name)?;
    let action = action_word(action)?;
    Ok((name, action))
}

pub(crate) fn action_word(word: &[u8]) -> Result<&[u8], Cause>
    ensures { MatchResult result
        (λ text. (text.now ≡ word.now) × IsActionText word.now)
        (λ cause. IsPartFault an_action word.now (cause_code cause)) }
{
    match Action::read(word) {
        Ok(_action) => Ok(word),
        Err(_) => Err(Cause::NoAction),
    }
}

pub(crate) fn name_word(word: &[u8]) -> Result<&[u8], Cause>
    ensures { MatchResult result
        (λ text. (text.now ≡ word.now) × IsName word.now)
        (λ cause. IsPartFault a_name word.now (cause_code cause)) }
{
    match Name::read(word) {
        Some(_name) => Ok(word),
        None => Err(Cause::NoName),
    }
}

pub(crate) fn ticket_word(word: &[u8]) -> Result<Ticket, Cause>
    ensures { MatchResult result
        (λ ticket. IsTicket ticket × (word.now ≡ ticket_text ticket))
        (λ cause. IsPartFault a_ticket word.now (cause_code cause)) }
{
    Ticket::read(word).ok_or(Cause::NoTicket)
}

pub(crate) fn number_word(word: &[u8]) -> Result<u64, Cause>
    ensures { MatchResult result
        (λ number. IsNumber (2 ^ 64) word.now number)
        (λ cause. IsPartFault a_number word.now (cause_code cause)) }
{
    read_number(word, u64::MAX).ok_or(Cause::NoNumber)
}

/// A lease in milliseconds, from 1 to `LONGEST_LEASE`.
pub(crate) fn lease_word(word: &[u8]) -> Result<u32, Cause>
    ensures { MatchResult result
        (λ lease. IsNumber (2 ^ 64) word.now lease × IsLease lease)
        (λ cause. IsPartFault a_lease word.now (cause_code cause)) }
{
    let lease = number_word(word)?;
    if lease < 1 || lease > LONGEST_LEASE {
        return Err(Cause::LeaseOutOfRange);
    }
    Ok(lease as u32)
}
