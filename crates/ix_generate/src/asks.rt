//! The actions of asks, and the numbers in them.
ghost use Rattle.std.specs.Prelude.{◌≡◌, ◌<◌, ◌++◌, ◌∷◌, ℕ, List, decimal, true};
ghost use Rattle.ix_values.specs.Texts.{IsName};
ghost use Rattle.ix_lines.specs.Bytes.{is_word_byte};
ghost use Rattle.ix_generate.specs.Workload.{action_on};

use arrayvec::ArrayVec;
use itoa::Buffer;
use ix_values::{Action, Name, Value};

/// The action of this name on a patient and an examination.
pub(crate) fn action_on(name: &[u8], patient: usize, examination: usize) -> Action
    requires { IsName name.now }
    ensures { result ≡ action_on name.now patient examination }
{
    let values = [numbered(b'p', patient), numbered(b'x', examination)];
    Action::new(Name::of_text(name), values.as_slice())
}

/// The value of a letter and a number in decimal.
fn numbered(letter: u8, number: usize) -> Value
    requires { is_word_byte letter ≡ true }
    ensures { result ≡ letter ∷ decimal number }
{
    let mut text: ArrayVec<u8, 21> = ArrayVec::new();
    text.push(letter);
    let mut digits = Buffer::new();
    for digit in digits.format(number).as_bytes() {
        text.push(*digit);
    }
    Value::of_text(text.as_slice())
}

/// The number behind the first byte of a text.
pub(crate) fn number_behind(text: &[u8]) -> u8
    requires { (letter number : ℕ) × (number < 256) × (text.now ≡ letter ∷ decimal number) }
    ensures { (letter number : ℕ) → number < 256 → text.now ≡ letter ∷ decimal number
        → result ≡ number }
{
    ix_lines::read_number(&text[1..], 255).unwrap() as u8
}
