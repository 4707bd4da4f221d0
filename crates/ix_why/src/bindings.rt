//! What parameters stand for, in a list that can be read.

ghost use Rattle.std.specs.Prelude.{◌≡◌, ◌<◌, ◌∷◌, ◌++◌, [], length};

use ix_values::{Name, Value};
use std::marker::Model;

/// At most eight parameters, each with its value or none. Contracts see the list of them.
#[derive(Clone, Copy)]
pub struct Bindings {
    entries: [(Name, Option<Value>); 8],
    count: u8,
}

impl Model for Bindings {
    ghost use Rattle.std.specs.Prelude.{ℕ, List, Option, ◌∷◌, [], ◌≤◌, length, take, None};
    ghost use Rattle.std.proofs.Common.{sym};
    ghost use Rattle.ix_values.specs.inside.Padding.{IsPadded, padded};

    ghost Value = { List (List ℕ × Option (List ℕ)) };

    ghost view = { λ b. take b.count b.entries };

    ghost invariant = { λ b. IsPadded 8 (97 ∷ [], None) b.count b.entries × (b.count ≤ 8) };

    ghost inverse = { λ v. record { entries = padded 8 (97 ∷ [], None) v; count = length v } };

    ghost inverse_ok = { λ a h. λ i.
        record { entries = sym h.0.filled i; count = h.0.counted i } };
}

impl Bindings {
    /// No parameter.
    pub(crate) fn new() -> Bindings
        ensures { result ≡ [] }
    {
        Bindings {
            entries: [(letter_a(), None); 8],
            count: 0,
        }
    }

    /// These, and behind them the parameter with its value or none.
    pub(crate) fn push(&mut self, parameter: &Name, value: &Option<Value>)
        requires { length self.old < 8 }
        ensures { self.new ≡ self.old ++ (parameter.now, value.now) ∷ [] }
    {
        self.entries[self.count as usize] = (*parameter, *value);
        self.count += 1;
    }

    /// The parameters in their order, each with its value or none.
    pub fn entries(&self) -> &[(Name, Option<Value>)]
        ensures { result.now ≡ self.now }
    {
        &self.entries[..self.count as usize]
    }
}

/// The name `a`, which stands in the places that hold no parameter.
fn letter_a() -> Name
    ensures { result ≡ 97 ∷ [] }
{
    Name::of_text(b"a")
}
