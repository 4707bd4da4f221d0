//! Candidates whose places are being filled.

ghost use Rattle.std.specs.Prelude.{◌≡◌, ◌<◌, ◌++◌, ◌∷◌, [], None, length};
ghost use Rattle.ix_next.specs.Candidates.{candidate_of, new_behind};
ghost use Rattle.ix_next.specs.declared.term.Term.TheVariants.{Known};
ghost use Rattle.ix_next.specs.inside.Fillings as spec;

use crate::candidate::Candidate;
use crate::chosen::Chosen;
use crate::term::Term;
use ix_values::{Name, Value};

/// A candidate with terms in its first places, the terms of the parameters that stand there, and
/// how many new values these have.
#[derive(Clone, Copy)]
pub(crate) struct Filling {
    pub(crate) candidate: Candidate,
    pub(crate) chosen: Chosen,
    pub(crate) news: u8,
}

impl Filling {
    /// The candidate of this name without a term.
    pub(crate) fn new(name: &Name) -> Filling
        ensures { result ≡ spec.begun_filling name.now }
    {
        Filling {
            candidate: Candidate::new(name),
            chosen: Chosen::new(),
            news: 0,
        }
    }

    /// This filling with a fixed value in the next place.
    pub(crate) fn fixed(&self, value: &Value) -> Filling
        requires { length self.now.candidate.terms < 4 }
        ensures { result ≡ spec.with_fixed self.now value.now }
    {
        Filling {
            candidate: self.candidate.with(&Term::Known(*value)),
            chosen: self.chosen,
            news: self.news,
        }
    }

    /// This filling with the term that the parameter has in the next place.
    pub(crate) fn again(&self, parameter: &Name, term: &Term) -> Filling
        requires place { length self.now.candidate.terms < 4 }
        requires chosen { length self.now.chosen < 4 }
        ensures { result ≡ spec.with_own self.now parameter.now term.now }
    {
        Filling {
            candidate: self.candidate.with(term),
            chosen: self.chosen.with(parameter, term),
            news: self.news,
        }
    }

    /// This filling with the term in the next place, where the parameter stands for the first time.
    pub(crate) fn first(&self, parameter: &Name, term: &Term) -> Filling
        requires place { length self.now.candidate.terms < 4 }
        requires chosen { length self.now.chosen < 4 }
        ensures { result ≡ spec.with_first self.now parameter.now term.now }
    {
        Filling {
            candidate: self.candidate.with(term),
            chosen: self.chosen.with(parameter, term),
            news: match term {
                Term::Known(_) => self.news,
                Term::New(number) => self.news.max(*number),
            },
        }
    }
}
