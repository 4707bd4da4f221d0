//! Candidates: actions with new values in them.

ghost use Rattle.std.specs.Prelude.{◌≡◌, ◌+◌, ◌<◌, ◌≤◌, [], ◌∷◌, ◌++◌, length, map};
ghost use Rattle.arrayvec.specs.ArrayVec.{array_vec_len};
ghost use Rattle.ix_values.specs.PlainAction.{text_of_values, text_of_rest};
ghost use Rattle.ix_next.specs.Candidates.{candidate_of, candidate_eq, candidate_text, term_text};
ghost use Rattle.ix_next.specs.lemmas.Same.{candidate_eq-partial, candidate_eq-equiv};
ghost use Rattle.ix_next.specs.lemmas.Same.{candidate_input, candidate_input-respects_eq};

use crate::term::Term;
use arrayvec::ArrayVec;
use ix_lines::{append, append_number};
use ix_values::Name;
use std::hash::{Hash, Hasher};
use std::marker::Model;

/// The name of an action, and 0 to 4 terms in the places of its values.
#[derive(Clone, Copy, Debug)]
pub struct Candidate {
    name: Name,
    terms: [Term; 4],
    count: u8,
}

impl Model for Candidate {
    ghost use Rattle.std.specs.Prelude.{[], ◌∷◌, ◌≤◌, length, take};
    ghost use Rattle.std.proofs.Common.{sym};
    ghost use Rattle.ix_values.specs.inside.Padding.{IsPadded, padded};
    ghost use Rattle.ix_values.specs.Texts.{IsName};
    ghost use Rattle.ix_next.specs.Candidates.{PlainCandidate, candidate_of};
    ghost use Rattle.ix_next.specs.declared.term.Term.TheVariants.{New};

    ghost Value = { PlainCandidate };

    ghost view = { λ c. candidate_of c.name (take c.count c.terms) };

    ghost invariant = { λ c. IsPadded 4 (New 0) c.count c.terms × (c.count ≤ 4) × IsName c.name };

    ghost inverse = { λ c.
        record { name = c.name; terms = padded 4 (New 0) c.terms; count = length c.terms } };

    ghost inverse_ok = { λ a h. λ i.
        record { name = a.name; terms = sym h.0.filled i; count = h.0.counted i } };
}

impl Candidate {
    /// The name of the actions that it stands for.
    pub fn name(&self) -> &Name
        ensures { result.now ≡ self.now.name }
    {
        &self.name
    }

    /// What stands in the places of their values.
    pub fn terms(&self) -> &[Term]
        ensures value { result.now ≡ self.now.terms }
        ensures few { length self.now.terms ≤ 4 }
    {
        &self.terms[..self.count as usize]
    }

    /// The candidate of this name without a term.
    pub(crate) fn new(name: &Name) -> Candidate
        ensures { result ≡ candidate_of name.now [] }
    {
        prove!(!name.bytes().is_empty());
        Candidate {
            name: *name,
            terms: [Term::New(0); 4],
            count: 0,
        }
    }

    /// This candidate with one more term, of which there are at most four.
    pub(crate) fn with(&self, term: &Term) -> Candidate
        requires { length self.now.terms < 4 }
        ensures { result ≡ candidate_of self.now.name (self.now.terms ++ term.now ∷ []) }
    {
        let mut next = *self;
        next.terms[next.count as usize] = *term;
        next.count += 1;
        next
    }

    /// Writes the text of the candidate, at most 165 bytes, into `out`, which is empty: its name
    /// and, in parentheses, its values, `$1`, `$2`, .. for the new ones.
    pub fn write(&self, out: &mut ArrayVec<u8, 168>)
        requires { out.old.items ≡ [] }
        ensures text { out.new.items ≡ candidate_text self.now }
        ensures short { array_vec_len out.new ≤ 165 }
    {
        append(out, self.name.bytes());
        write_terms(out, self.terms());
    }
}

impl PartialEq for Candidate {
    ghost eq = { candidate_eq };

    ghost laws = { candidate_eq-partial };

    fn eq(&self, other: &Candidate) -> bool {
        self.name == other.name && self.terms() == other.terms()
    }
}

impl Eq for Candidate {
    ghost laws = { candidate_eq-equiv };
}

impl Hash for Candidate {
    ghost hash_input = { candidate_input };

    ghost respects_eq = { candidate_input-respects_eq };

    fn hash<H: Hasher>(&self, state: &mut H) {
        state.write(self.name.bytes());
        for term in self.terms() {
            match term {
                Term::Known(value) => state.write(value.bytes()),
                Term::New(number) => state.write(&[*number]),
            }
        }
    }
}

fn write_terms(out: &mut ArrayVec<u8, 168>, terms: &[Term])
    requires room { array_vec_len out.old ≤ 32 }
    requires few { length terms.now ≤ 4 }
    ensures text { out.new.items ≡ out.old.items ++ text_of_values (map term_text terms.now) }
    ensures short { array_vec_len out.new ≤ 165 }
{
    match terms {
        [] => {}
        [first, rest @ ..] => {
            out.push(b'(');
            write_term(out, first);
            write_rest(out, rest);
        }
    }
}

fn write_rest(out: &mut ArrayVec<u8, 168>, rest: &[Term])
    requires room { array_vec_len out.old ≤ 65 }
    requires few { length rest.now < 4 }
    ensures text { out.new.items ≡ out.old.items ++ text_of_rest (map term_text rest.now) }
    ensures short { array_vec_len out.new ≤ 165 }
{
    for term in rest {
        out.push(b',');
        write_term(out, term);
    }
    out.push(b')');
}

fn write_term(out: &mut ArrayVec<u8, 168>, term: &Term)
    requires { array_vec_len out.old + 32 ≤ 168 }
    ensures text { out.new.items ≡ out.old.items ++ term_text term.now }
    ensures short { array_vec_len out.new ≤ array_vec_len out.old + 32 }
{
    match term {
        Term::Known(value) => append(out, value.bytes()),
        Term::New(number) => {
            out.push(b'$');
            append_number(out, u64::from(*number));
        }
    }
}
