//! Environments: what parameters stand for.

ghost use Rattle.std.specs.Prelude.{◌≡◌, ◌<◌, ◌↔◌, IsTrue, Some, false, [], ◌∷◌, length};
ghost use Rattle.ix_expr.specs.Environment.{bind, value_in};
ghost use Rattle.ix_expr.specs.FormFaults.{binders_of, is_bound};

use ix_values::{Name, Value};
use std::marker::Model;

/// What at most eight parameters stand for: each a value, or outside, which equals
/// no value of an action.
#[derive(Clone, Copy, Debug)]
pub struct Env {
    entries: [(Name, Option<Value>); 8],
    count: u8,
}

impl Model for Env {
    ghost use Rattle.std.specs.Prelude.{◌∷◌, [], ◌≤◌, length, take, reverse, None};
    ghost use Rattle.std.proofs.Common.{sym, ap, ◌∙◌};
    ghost use Rattle.std.proofs.lemmas.List.{reverse-reverse};
    ghost use Rattle.ix_values.specs.inside.Padding.{IsPadded, padded};
    ghost use Rattle.ix_expr.specs.Environment.{Environment};

    ghost Value = { Environment };

    ghost view = { λ e. reverse (take e.count e.entries) };

    ghost invariant = { λ e. IsPadded 8 (97 ∷ [], None) e.count e.entries × (e.count ≤ 8) };

    ghost inverse = { λ v.
        record { entries = padded 8 (97 ∷ [], None) (reverse v); count = length (reverse v) } };

    ghost inverse_ok = { λ a h.
        ap (λ items. record { entries = padded 8 (97 ∷ [], None) items; count = length items })
        (reverse-reverse (take a.count a.entries))
        ∙ (λ i. record { entries = sym h.0.filled i; count = h.0.counted i }) };
}

impl Env {
    /// The environment with no parameter in it.
    pub fn new() -> Env
        ensures { result ≡ [] }
    {
        Env {
            entries: [(letter_a(), None); 8],
            count: 0,
        }
    }

    /// This environment with the parameter `name` given `value`, where None is outside.
    pub fn with(&self, name: Name, value: Option<Value>) -> Env
        requires room { length self.now < 8 }
        requires free { is_bound (binders_of self.now) name ≡ false }
        ensures { result ≡ bind name value self.now }
    {
        let mut env = *self;
        env.bind(name, value);
        env
    }

    /// Gives the parameter `name` this value, where None is outside. Nothing is copied.
    pub fn bind(&mut self, name: Name, value: Option<Value>)
        requires room { length self.old < 8 }
        requires free { is_bound (binders_of self.old) name ≡ false }
        ensures { self.new ≡ bind name value self.old }
    {
        self.entries[self.count as usize] = (name, value);
        self.count += 1;
    }

    /// Whether the parameter `name` stands for `value`. Of two entries of it the newer counts; one
    /// that has none is outside.
    pub(crate) fn gives(&self, name: &Name, value: &Value) -> bool
        ensures { IsTrue result ↔ (value_in self.now name.now ≡ Some value.now) }
    {
        let entries = &self.entries[..self.count as usize];
        for index in (0..entries.len()).rev() {
            let (parameter, given) = &entries[index];
            if parameter == name {
                return equals(given, value);
            }
        }
        false
    }
}

/// Whether what is given is this value. Outside equals no value.
fn equals(given: &Option<Value>, value: &Value) -> bool
    ensures { IsTrue result ↔ (given.now ≡ Some value.now) }
{
    match given {
        Some(own) => own == value,
        None => false,
    }
}

/// The name `a`, which stands in the places of an environment that hold no parameter.
fn letter_a() -> Name
    ensures { result ≡ 97 ∷ [] }
{
    Name::of_text(b"a")
}
