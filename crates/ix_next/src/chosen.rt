//! The terms that parameters have.

ghost use Rattle.std.specs.Prelude.{◌≡◌, ◌<◌, [], ◌∷◌, length};
ghost use Rattle.ix_next.specs.Candidates.{term_of};

use crate::term::Term;
use ix_values::Name;
use std::marker::Model;

/// The terms of at most four parameters. Contracts see the list of them, the newest first.
#[derive(Clone, Copy)]
pub(crate) struct Chosen {
    entries: [(Name, Term); 4],
    count: u8,
}

impl Model for Chosen {
    ghost use Rattle.std.specs.Prelude.{ℕ, List, [], ◌∷◌, ◌≤◌, length, take, reverse};
    ghost use Rattle.std.proofs.Common.{sym, ap, ◌∙◌};
    ghost use Rattle.std.proofs.lemmas.List.{reverse-reverse};
    ghost use Rattle.ix_values.specs.inside.Padding.{IsPadded, padded};
    ghost use Rattle.ix_next.specs.declared.term.Term.{Term};
    ghost use Rattle.ix_next.specs.declared.term.Term.TheVariants.{New};

    ghost Value = { List (List ℕ × Term) };

    ghost view = { λ c. reverse (take c.count c.entries) };

    ghost invariant = { λ c. IsPadded 4 (97 ∷ [], New 0) c.count c.entries × (c.count ≤ 4) };

    ghost inverse = { λ v.
        record { entries = padded 4 (97 ∷ [], New 0) (reverse v); count = length (reverse v) } };

    ghost inverse_ok = { λ a h.
        ap (λ items. record { entries = padded 4 (97 ∷ [], New 0) items; count = length items })
        (reverse-reverse (take a.count a.entries))
        ∙ (λ i. record { entries = sym h.0.filled i; count = h.0.counted i }) };
}

impl Chosen {
    /// No parameter.
    pub(crate) fn new() -> Chosen
        ensures { result ≡ [] }
    {
        Chosen {
            entries: [(Name::of_text(b"a"), Term::New(0)); 4],
            count: 0,
        }
    }

    /// These, and the parameter with its term.
    pub(crate) fn with(&self, parameter: &Name, term: &Term) -> Chosen
        requires { length self.now < 4 }
        ensures { result ≡ (parameter.now, term.now) ∷ self.now }
    {
        let mut next = *self;
        next.entries[next.count as usize] = (*parameter, *term);
        next.count += 1;
        next
    }

    /// The term of the parameter, if it has one.
    pub(crate) fn get(&self, parameter: &Name) -> Option<Term>
        ensures { result ≡ term_of parameter.now self.now }
    {
        let entries = &self.entries[..self.count as usize];
        for index in (0..entries.len()).rev() {
            let (name, term) = &entries[index];
            if name == parameter {
                return Some(*term);
            }
        }
        None
    }
}
