//! Actions: a name and at most four values.

ghost use Rattle.std.specs.Prelude.{◌≡◌, ◌<◌, ◌≤◌, ◌↔◌, ◌++◌, IsTrue, refl, [], ◌∷◌, length, All};
ghost use Rattle.std.specs.Ordering.{as_partial_cmp};
ghost use Rattle.ix_values.specs.inside.ActionOrder.{action_eq, action_cmp};
ghost use Rattle.ix_values.specs.lemmas.Order.{action_eq-partial, action_eq-equiv, action_eq-ties};
ghost use Rattle.ix_values.specs.lemmas.Order.{action_cmp-partial, action_cmp-total};
ghost use Rattle.ix_values.specs.inside.Padding.{padded};
ghost use Rattle.ix_values.specs.inside.ActionOf.{action_of};
ghost use Rattle.ix_values.specs.Texts.{IsAction, IsValue};

use crate::names::Name;
use crate::values::Value;
use std::cmp::Ordering;
use std::marker::Model;

/// An action: a name and 0 to 4 values.
#[derive(Clone, Copy, Debug)]
pub struct Action {
    name: Name,
    values: [Value; 4],
    count: u8,
}

impl Model for Action {
    ghost use Rattle.std.specs.Prelude.{[], ◌∷◌, length, take};
    ghost use Rattle.std.proofs.Common.{sym};
    ghost use Rattle.ix_values.specs.inside.Padding.{IsPadded, padded};
    ghost use Rattle.ix_values.specs.PlainAction.{PlainAction};
    ghost use Rattle.ix_values.specs.inside.ActionOf.{action_of};
    ghost use Rattle.ix_values.specs.Texts.{IsAction};

    ghost Value = { PlainAction };

    ghost view = { λ a. action_of a.name (take a.count a.values) };

    ghost invariant = { λ a. IsPadded 4 (48 ∷ []) a.count a.values
        × IsAction (action_of a.name (take a.count a.values)) };

    ghost inverse = { λ a.
        record { name = a.name; values = padded 4 (48 ∷ []) a.values; count = length a.values } };

    ghost inverse_ok = { λ a h. λ i.
        record { name = a.name; values = sym h.0.filled i; count = h.0.counted i } };
}

impl Action {
    /// The action of this name and these values, of which there may be at most four.
    pub fn new(name: Name, args: &[Value]) -> Action
        requires { length args.now ≤ 4 }
        ensures { result ≡ action_of name args.now }
    {
        prove!(!name.bytes().is_empty());
        Action {
            name,
            values: zero_padded(args),
            count: args.len() as u8,
        }
    }

    pub(crate) fn push(&mut self, value: Value)
        requires { length self.old.values < 4 }
        ensures { self.new ≡ action_of self.old.name (self.old.values ++ value ∷ []) }
    {
        prove!(!value.bytes().is_empty());
        self.values[self.count as usize] = value;
        self.count += 1;
    }

    /// The name, which stands in front of the values in the action's text.
    pub fn name(&self) -> &Name
        ensures value { result.now ≡ self.now.name }
        ensures valid { IsAction self.now }
    {
        &self.name
    }

    /// The values of the action, in the order of their places.
    pub fn values(&self) -> &[Value]
        ensures value { result.now ≡ self.now.values }
        ensures valid { IsAction self.now }
    {
        &self.values[..self.count as usize]
    }
}

/// The values of `args`, and the value `0` in the places behind them.
fn zero_padded(args: &[Value]) -> [Value; 4]
    requires { length args.now ≤ 4 }
    ensures value { result ≡ padded 4 (48 ∷ []) args.now }
    ensures valid { All IsValue args.now }
{
    let mut values = [Value::zero(); 4];
    for (index, value) in args.iter().enumerate() {
        prove!(!value.bytes().is_empty());
        values[index] = *value;
    }
    values
}

impl PartialEq for Action {
    ghost eq = { action_eq };

    ghost laws = { action_eq-partial };

    fn eq(&self, other: &Action) -> bool
        ensures value { result ≡ action_eq self.now other.now }
        ensures same { IsTrue result ↔ (self.now ≡ other.now) }
    {
        self.name == other.name && self.values() == other.values()
    }
}

impl Eq for Action {
    ghost laws = { action_eq-equiv };
}

impl PartialOrd for Action {
    ghost partial_cmp = { as_partial_cmp action_cmp };

    ghost laws = { action_cmp-partial };

    fn partial_cmp(&self, other: &Action) -> Option<Ordering> {
        Some(self.cmp(other))
    }
}

impl Ord for Action {
    ghost cmp = { action_cmp };

    ghost total = { action_cmp-total };

    ghost matches_partial_cmp = { λ x y. refl };

    ghost matches_eq = { action_eq-ties };

    fn cmp(&self, other: &Action) -> Ordering
        ensures value { result ≡ action_cmp self.now other.now }
        ensures same { result ≡ Ordering.Equal → self.now ≡ other.now }
    {
        self.name
            .cmp(&other.name)
            .then(self.values().cmp(other.values()))
    }
}
