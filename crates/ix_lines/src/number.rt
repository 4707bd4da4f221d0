//! Decimal numbers in texts.

ghost use Rattle.std.specs.Prelude.{◌≡◌, ◌+◌, ◌^◌, ℕ, Some, MatchOption};
ghost use Rattle.ix_lines.specs.Numbers.{IsNumber, Begins, BeginsWithNumber};

use crate::words::split_word;
use itoa::Buffer;
use std::str;

/// The number whose text this is, at most `greatest`, in decimal digits without leading zeros, or
/// None where the text isn't one's. Takes no memory.
pub fn read_number(text: &[u8], greatest: u64) -> Option<u64>
    ensures { MatchOption result
        ((number : ℕ) → ¬ IsNumber (greatest + 1) text.now number)
        (λ number. IsNumber (greatest + 1) text.now number) }
{
    let number = parse(text)?;
    if number > greatest {
        return None;
    }
    let mut buffer = Buffer::new();
    // Other texts of the number, as those with a leading zero or a sign, print back differently.
    if buffer.format(number).as_bytes() == text {
        Some(number)
    } else {
        None
    }
}

/// The number that a text of digits stands for.
fn parse(text: &[u8]) -> Option<u64>
    ensures { (number : ℕ) → IsNumber (2 ^ 64) text.now number → result ≡ Some number }
{
    match str::from_utf8(text) {
        Ok(digits) => digits.parse::<u64>().ok(),
        Err(_) => None,
    }
}

/// A number, and the text behind the space that follows it.
#[derive(Clone, Copy)]
pub struct NumberAnd<'a> {
    pub number: u64,
    pub rest: &'a [u8],
}

/// The number at the front of a text, at most `greatest`, and what stands behind the space that
/// follows it, or None where the text begins otherwise. Takes no memory.
pub fn number_and(text: &[u8], greatest: u64) -> Option<NumberAnd<'_>>
    ensures { MatchOption result
        (¬ Begins (greatest + 1) text.now)
        (λ found. BeginsWithNumber (greatest + 1) text.now found.number found.rest.now) }
{
    let (word, Some(rest)) = split_word(text) else {
        return None;
    };
    let Some(number) = read_number(word, greatest) else {
        return None;
    };
    Some(NumberAnd { number, rest })
}
