//! What stands in a place of a candidate.

ghost use Rattle.ix_next.specs.Candidates.{term_eq};
ghost use Rattle.ix_next.specs.lemmas.Same.{term_eq-partial, term_eq-equiv};

use ix_values::Value;

/// What stands in a place of a candidate.
#[derive(Clone, Copy, Debug)]
pub enum Term {
    /// This value: given, or fixed in the expression.
    Known(Value),
    /// A new value, by its number from 1: one that neither the history nor the expression has, and
    /// that isn't given. Different numbers have different values.
    New(u8),
}

impl PartialEq for Term {
    ghost eq = { term_eq };

    ghost laws = { term_eq-partial };

    fn eq(&self, other: &Term) -> bool {
        match (self, other) {
            (Term::Known(own), Term::Known(value)) => own == value,
            (Term::New(own), Term::New(number)) => *own == *number,
            _ => false,
        }
    }
}

impl Eq for Term {
    ghost laws = { term_eq-equiv };
}
