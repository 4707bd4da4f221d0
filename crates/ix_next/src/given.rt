//! Given values.

ghost use Rattle.std.specs.Prelude.{◌≡◌, ◌≢◌, ◌+◌, ◌<◌, ◌++◌, ◌∷◌, MatchOption, All, take, drop};
ghost use Rattle.std.specs.Prelude.{length};
ghost use Rattle.ix_next.specs.Given.{IsGivenText};

use ix_values::{Name, Value};
use std::marker::Model;

/// A value that is given, and the parameters that it goes to.
#[derive(Clone, Copy, Debug)]
pub struct Given {
    parameter: Option<Name>,
    value: Value,
}

impl Model for Given {
    ghost use Rattle.ix_next.specs.Given.{PlainGiven};

    ghost Value = { PlainGiven };

    ghost view = { λ g. record { parameter = g.parameter; value = g.value } };

    ghost inverse = { λ v. record { parameter = v.parameter; value = v.value } };
}

impl Given {
    /// The name of the parameters that it goes to, or None for every parameter.
    pub fn parameter(&self) -> &Option<Name>
        ensures { result.now ≡ self.now.parameter }
    {
        &self.parameter
    }

    /// The value.
    pub fn value(&self) -> &Value
        ensures { result.now ≡ self.now.value }
    {
        &self.value
    }
}

/// The given value whose text this is: `V`, a value for every parameter, or `P=V`, a value for the
/// parameters of the name P. None where it is neither.
pub fn read_given(text: &[u8]) -> Option<Given>
    ensures { MatchOption result
        ((given : Given) → ¬ IsGivenText text.now given)
        (IsGivenText text.now) }
{
    match first_equals(text) {
        None => for_every_parameter(text),
        Some(place) => for_parameter(&text[..place], &text[place + 1..]),
    }
}

/// The place of the first `=`.
fn first_equals(text: &[u8]) -> Option<usize>
    ensures { MatchOption result
        (All (λ byte. byte ≢ 61) text.now)
        (λ place. (text.now ≡ take place text.now ++ 61 ∷ drop (place + 1) text.now)
        × (place < length text.now)
        × All (λ byte. byte ≢ 61) (take place text.now)) }
{
    for place in 0..text.len() {
        if text[place] == b'=' {
            return Some(place);
        }
    }
    None
}

/// The given value of a text without a `=`.
fn for_every_parameter(text: &[u8]) -> Option<Given>
    requires { All (λ byte. byte ≢ 61) text.now }
    ensures { MatchOption result
        ((given : Given) → ¬ IsGivenText text.now given)
        (IsGivenText text.now) }
{
    match Value::read(text) {
        Some(value) => Some(Given {
            parameter: None,
            value,
        }),
        None => None,
    }
}

/// The given value of the text of a name, `=` and the text of a value.
#[tactic(auto, using(crate::proofs::GivenTexts::parts_of_given))]
fn for_parameter(name: &[u8], value: &[u8]) -> Option<Given>
    requires { All (λ byte. byte ≢ 61) name.now }
    ensures { MatchOption result
        ((given : Given) → ¬ IsGivenText (name.now ++ 61 ∷ value.now) given)
        (IsGivenText (name.now ++ 61 ∷ value.now)) }
{
    match (Name::read(name), Value::read(value)) {
        (Some(parameter), Some(value)) => Some(Given {
            parameter: Some(parameter),
            value,
        }),
        _ => None,
    }
}
