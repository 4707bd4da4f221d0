//! Values that are new.

ghost use Rattle.std.specs.Prelude.{◌≡◌, false, IfSome, length};
ghost use Rattle.std.specs.List.{list_any};
ghost use Rattle.ix_values.specs.Order.{text_eq};
ghost use Rattle.ix_next.specs.inside.Fresh as spec;

use crate::given::Given;
use arrayvec::ArrayVec;
use ix_lines::{append, append_number};
use ix_values::{Action, Value};

/// Where the values stand that aren't new.
#[derive(Clone, Copy)]
pub(crate) struct Known<'h, 'f, 'g> {
    pub(crate) history: &'h [Action],
    pub(crate) fixed: &'f [Value],
    pub(crate) given: &'g [Given],
}

/// Four different values, none of them known. None only if there were more known values than a
/// memory holds.
pub(crate) fn new_values(known: Known) -> Option<[Value; 4]>
    ensures new { IfSome result (λ values. spec.AreNew known.entry values) }
    ensures four { IfSome result (λ values. length values ≡ 4) }
{
    let prefix = rare_prefix(known);
    let first = new_value(known, &prefix, &[])?;
    let second = new_value(known, &prefix, &[first])?;
    let third = new_value(known, &prefix, &[first, second])?;
    let fourth = new_value(known, &prefix, &[first, second, third])?;
    Some([first, second, third, fourth])
}

/// A value that isn't known and is none of those taken: the first that is the prefix with a number
/// behind it.
fn new_value(known: Known, prefix: &ArrayVec<u8, 24>, taken: &[Value]) -> Option<Value>
    ensures known { IfSome result (λ value. spec.is_known known.entry value ≡ false) }
    ensures taken { IfSome result (λ value. list_any (text_eq value) taken.now ≡ false) }
{
    for number in 0..u32::MAX {
        if let Some(value) = numbered(prefix, number) {
            if !is_known(known, &value) && !has(taken, &value) {
                return Some(value);
            }
        }
    }
    None
}

/// The value that is the prefix with the number behind it, if that isn't too long.
fn numbered(prefix: &ArrayVec<u8, 24>, number: u32) -> Option<Value> {
    let mut text: ArrayVec<u8, 48> = ArrayVec::new();
    append(&mut text, prefix.as_slice());
    append_number(&mut text, u64::from(number));
    Value::read(text.as_slice())
}

/// Whether the value stands in the history, among the fixed values, or among those given.
fn is_known(known: Known, value: &Value) -> bool
    ensures { result ≡ spec.is_known known.entry value.now }
{
    is_acted(known.history, value) || has(known.fixed, value) || is_given(known.given, value)
}

fn is_acted(history: &[Action], value: &Value) -> bool
    ensures { result ≡ list_any (λ action. list_any (text_eq value.now) action.values) history.now }
{
    history.iter().any(|action| has(action.values(), value))
}

fn is_given(given: &[Given], value: &Value) -> bool
    ensures { result ≡ list_any (λ one. text_eq value.now one.value) given.now }
{
    given.iter().any(|one| *value == *one.value())
}

fn has(values: &[Value], value: &Value) -> bool
    ensures { result ≡ list_any (text_eq value.now) values.now }
{
    values.iter().any(|own| value == own)
}

/// A prefix that few known values have, and nearly always none: it grows by that letter, of two,
/// which the fewer of them have behind it.
fn rare_prefix(known: Known) -> ArrayVec<u8, 24> {
    let mut prefix: ArrayVec<u8, 24> = ArrayVec::new();
    for _ in 0..24 {
        let with_a = count(known, prefix.as_slice(), b'a');
        let with_b = count(known, prefix.as_slice(), b'b');
        if prefix.is_full() {
            return prefix;
        }
        prefix.push(if with_a <= with_b { b'a' } else { b'b' });
        if with_a == 0 || with_b == 0 {
            return prefix;
        }
    }
    prefix
}

/// How many of the known values begin with the prefix and the byte.
fn count(known: Known, prefix: &[u8], byte: u8) -> u64 {
    let mut count = count_among(known.fixed, prefix, byte);
    for action in known.history {
        count = count.saturating_add(count_among(action.values(), prefix, byte));
    }
    count
}

fn count_among(values: &[Value], prefix: &[u8], byte: u8) -> u64 {
    let mut count: u64 = 0;
    for value in values {
        if begins(value.bytes(), prefix, byte) {
            count = count.saturating_add(1);
        }
    }
    count
}

fn begins(text: &[u8], prefix: &[u8], byte: u8) -> bool {
    text.starts_with(prefix) && text.get(prefix.len()) == Some(&byte)
}
