//! Words in the place of an operand, and the number behind `times`.

ghost use Rattle.std.specs.Prelude.{◌≡◌};
ghost use Rattle.ix_values.specs.Texts.{begins_with_letter};
ghost use Rattle.ix_parse.specs.Symbols as spec;
ghost use Rattle.ix_parse.specs.inside.StackMachine as machine;

use crate::signs::{Quantifier, WordClass};
use ix_lines::read_number;

#[tactic(auto, unfolding(crate::specs::Symbols::class_of))]
pub(crate) fn class_of(word: &[u8]) -> WordClass
    ensures { result ≡ spec.class_of word.now }
{
    if word == b"any".as_slice() {
        WordClass::Quantifies(Quantifier::Any)
    } else if word == b"every".as_slice() {
        WordClass::Quantifies(Quantifier::Every)
    } else if word == b"sync".as_slice() {
        WordClass::Quantifies(Quantifier::Sync)
    } else if word == b"all".as_slice() {
        WordClass::Quantifies(Quantifier::All)
    } else if word == b"times".as_slice() {
        WordClass::Counts
    } else if begins_with_letter(word) {
        WordClass::Names
    } else {
        WordClass::Other
    }
}

/// The number from 2 to 64 that a word stands for, in decimal without leading zeros, or None.
pub(crate) fn number_of(word: &[u8]) -> Option<u8>
    ensures { result ≡ machine.number_of word.now }
{
    let Some(number) = read_number(word, 64) else {
        return None;
    };
    if number < 2 {
        return None;
    }
    Some(number as u8)
}

fn begins_with_letter(word: &[u8]) -> bool
    ensures { result ≡ begins_with_letter word.now }
{
    match word {
        [first, ..] => first.is_ascii_alphabetic(),
        [] => false,
    }
}
