//! Values of actions.

ghost use Rattle.std.specs.Prelude.{◌≡◌, ◌↔◌, IsTrue, MatchOption, [], ◌∷◌};
ghost use Rattle.std.proofs.Common.{rules};
ghost use Rattle.std.specs.Cmp.{partial_order_from_own_ties};
ghost use Rattle.std.specs.Cmp.Rules.{comparing};
ghost use Rattle.std.specs.Ordering.{as_partial_cmp};
ghost use Rattle.ix_values.specs.Order.{text_eq, text_cmp};
ghost use Rattle.ix_values.specs.Texts.{IsValue};

use crate::bytes::{is_value, zero_padded};
use std::cmp::Ordering;
use std::marker::Model;

/// A value: 1 to 32 ASCII letters, digits and `_`.
#[derive(Clone, Copy, Debug)]
pub struct Value {
    bytes: [u8; 32],
    len: u8,
}

impl Model for Value {
    ghost use Rattle.std.specs.Prelude.{ℕ, List, length, take};
    ghost use Rattle.std.proofs.Common.{sym};
    ghost use Rattle.ix_values.specs.inside.Padding.{IsPadded, padded};
    ghost use Rattle.ix_values.specs.Texts.{IsValue};

    ghost Value = { List ℕ };

    ghost view = { λ n. take n.len n.bytes };

    ghost invariant = { λ n. IsPadded 32 0 n.len n.bytes × IsValue (take n.len n.bytes) };

    ghost inverse = { λ text. record { bytes = padded 32 0 text; len = length text } };

    ghost inverse_ok = { λ n h. λ i. record { bytes = sym h.0.filled i; len = h.0.counted i } };
}

impl Value {
    /// The value whose bytes are `text`, or None where `text` isn't a value.
    pub fn read(text: &[u8]) -> Option<Value>
        ensures { MatchOption result
            (¬ IsValue text.now)
            (λ value. (value ≡ text.now) × IsValue text.now) }
    {
        if is_value(text) {
            Some(Value::of_text(text))
        } else {
            None
        }
    }

    /// The value `0`, which stands in the places of an action that hold no value of its own.
    pub(crate) fn zero() -> Value
        ensures { result ≡ 48 ∷ [] }
    {
        Value {
            bytes: zero_padded(b"0"),
            len: 1,
        }
    }

    /// The value whose bytes these are.
    pub fn of_text(text: &[u8]) -> Value
        requires { IsValue text.now }
        ensures { result ≡ text.now }
    {
        Value {
            bytes: zero_padded(text),
            len: text.len() as u8,
        }
    }

    /// The bytes of the value, 1 to 32 of them.
    pub fn bytes(&self) -> &[u8]
        ensures value { result.now ≡ self.now }
        ensures valid { IsValue self.now }
    {
        &self.bytes[..self.len as usize]
    }
}

impl PartialEq for Value {
    ghost eq = { text_eq };

    ghost laws = { Prim.search (comparing, rules) };

    fn eq(&self, other: &Value) -> bool
        ensures value { result ≡ text_eq self.now other.now }
        ensures same { IsTrue result ↔ (self.now ≡ other.now) }
    {
        // Behind a text are zeros, so texts of one length are equal where the arrays are. Comparing
        // those takes no loop.
        self.len == other.len && self.bytes == other.bytes
    }
}

impl Eq for Value {
    ghost laws = { Prim.search (comparing, rules) };
}

impl PartialOrd for Value {
    ghost partial_cmp = { as_partial_cmp text_cmp };

    ghost laws = { partial_order_from_own_ties (Prim.search (comparing, rules))
        (Prim.search (comparing, rules)) };

    fn partial_cmp(&self, other: &Value) -> Option<Ordering> {
        Some(self.cmp(other))
    }
}

impl Ord for Value {
    ghost cmp = { text_cmp };

    ghost total = { Prim.search (comparing, rules) };

    ghost matches_partial_cmp = { Prim.search (comparing, rules) };

    ghost matches_eq = { Prim.search (comparing, rules) };

    fn cmp(&self, other: &Value) -> Ordering
        ensures value { result ≡ text_cmp self.now other.now }
        ensures same { result ≡ Ordering.Equal → self.now ≡ other.now }
    {
        self.bytes().cmp(other.bytes())
    }
}
