//! The reader of actions.

ghost use Rattle.std.specs.Prelude.{◌≡◌, ◌<◌, ◌≤◌, ◌↔◌, IsTrue, false, length, take, slice_get};
ghost use Rattle.std.specs.Prelude.{MatchOption, MatchResult};
ghost use Rattle.ix_values.specs.Faults.{IsActionText, IsFault};
ghost use Rattle.ix_values.specs.Laws.{ActionTextsHaveOneFault};
ghost use Rattle.ix_values.specs.PlainAction.{text_of};
ghost use Rattle.ix_values.specs.inside.Causes.{action_code};
ghost use Rattle.ix_values.specs.inside.FirstWord as spec;
ghost use Rattle.ix_values.specs.Texts as texts;
ghost use Rattle.ix_values.specs.Texts.{IsAction, IsName, IsValue};

use crate::actions::Action;
use crate::bytes::begins_with_letter;
use crate::faults::{ActionFault, Cause, fault};
use crate::names::Name;
use crate::values::Value;
use ix_lines::is_word_byte;

impl Action {
    /// The action whose text is `text`. There is at most one. Where no action has
    /// this text, its fault.
    pub fn read(text: &[u8]) -> Result<Action, ActionFault>
        ensures { MatchResult result
            (λ action. IsAction action × (text_of action ≡ text.now))
            (λ fault. IsFault text.now fault.code fault.at) }
    {
        let name = match read_name(text) {
            Some(name) => name,
            None => return Err(fault(Cause::Name, 0)),
        };
        let at = name.bytes().len();
        let action = Action::new(name, &[]);
        match byte_at(text, at) {
            None => Ok(action),
            Some(b'(') => read_values(text, at + 1, action),
            Some(byte) => Err(fault(cause_after_name(byte), at)),
        }
    }
}

impl Action {
    /// The action whose text this is.
    pub fn of_text(text: &[u8]) -> Action
        requires { IsActionText text.now }
        ensures valid { IsAction result }
        ensures same { text_of result ≡ text.now }
    {
        match Action::read(text) {
            Ok(action) => action,
            Err(_) => unreachable!(),
        }
    }
}

/// Reads the first values and what stands behind them. In front of `at` stand the name and `(`.
fn read_values(text: &[u8], mut at: usize, mut action: Action) -> Result<Action, ActionFault>
    requires within { at ≤ length text.now }
    requires before { take at text.now ≡ spec.opened action.name action.values }
    requires valid { IsAction action }
    requires few { length action.values < 4 }
    ensures { MatchResult result
        (λ read. IsAction read × (text_of read ≡ text.now))
        (λ fault. IsFault text.now fault.code fault.at) }
{
    loop {
        let value = match read_value(&text[at..]) {
            Some(value) => value,
            None => return Err(fault(Cause::Argument, at)),
        };
        at += value.bytes().len();
        action.push(value);
        let next = byte_at(text, at);
        if closes(next) {
            return end(text, at + 1, action);
        }
        if !goes_on(next, action.values().len()) {
            return Err(fault(cause_after_value(next), at));
        }
        at += 1;
    }
}

/// Reads the end of the text. In front of `at` stands the text of the action.
fn end(text: &[u8], at: usize, action: Action) -> Result<Action, ActionFault>
    requires within { at ≤ length text.now }
    requires before { take at text.now ≡ text_of action }
    requires valid { IsAction action }
    requires some { 0 < length action.values }
    ensures { MatchResult result
        (λ read. IsAction read × (text_of read ≡ text.now))
        (λ fault. IsFault text.now fault.code fault.at) }
{
    if at == text.len() {
        Ok(action)
    } else {
        Err(fault(Cause::Trailing, at))
    }
}

/// The name that `text` begins with, or None where its first byte is no letter.
fn read_name(text: &[u8]) -> Option<Name>
    ensures { MatchOption result
        (texts.begins_with_letter text.now ≡ false)
        (λ name. (name ≡ spec.first_word text.now) × IsName name) }
{
    if !begins_with_letter(text) {
        return None;
    }
    Some(Name::of_text(&text[..word_length(text)]))
}

/// The value that `text` begins with, or None where its first byte is no word byte.
fn read_value(text: &[u8]) -> Option<Value>
    ensures { MatchOption result
        (spec.word_length text.now ≡ 0)
        (λ value. (value ≡ spec.first_word text.now) × IsValue value) }
{
    let length = word_length(text);
    if length == 0 {
        return None;
    }
    Some(Value::of_text(&text[..length]))
}

/// How many word bytes `text` begins with, at most 32.
fn word_length(text: &[u8]) -> usize
    ensures { result ≡ spec.word_length text.now }
{
    text.iter()
        .take(32)
        .take_while(|byte| is_word_byte(**byte))
        .count()
}

fn byte_at(text: &[u8], at: usize) -> Option<u8>
    ensures { result ≡ slice_get text.now at }
{
    text.get(at).copied()
}

fn closes(next: Option<u8>) -> bool
    ensures { IsTrue result ↔ (next ≡ Some 41) }
{
    matches!(next, Some(b')'))
}

fn goes_on(next: Option<u8>, count: usize) -> bool
    ensures { IsTrue result ↔ ((next ≡ Some 44) × (count < 4)) }
{
    matches!(next, Some(b',')) && count < 4
}

fn cause_after_name(byte: u8) -> Cause
    ensures { action_code result ≡ spec.code_after_name byte }
{
    if is_word_byte(byte) {
        Cause::TooLong
    } else {
        Cause::Trailing
    }
}

fn cause_after_value(next: Option<u8>) -> Cause
    ensures { action_code result ≡ spec.code_after_value next }
{
    match next {
        Some(b',') => Cause::TooManyArguments,
        Some(byte) if is_word_byte(byte) => Cause::TooLong,
        _ => Cause::Argument,
    }
}

/// A text has at most one fault, at one place.
pub fn action_texts_have_one_fault()
    ensures { ActionTextsHaveOneFault }
{}
