//! Whether a candidate is kept.

ghost use Rattle.std.specs.Prelude.{◌≡◌};
ghost use Rattle.ix_next.specs.Candidates.{action_with, value_of};
ghost use Rattle.ix_next.specs.inside.Trials as spec;

use crate::candidate::Candidate;
use crate::term::Term;
use ix_can::can;
use ix_expr::{Env, Expression};
use ix_tree::Tree;
use ix_values::{Action, Value};

/// What is asked whether an action may come, and the new values that are tried.
#[derive(Clone, Copy)]
pub(crate) struct Trial<'e, 't, 'n> {
    pub(crate) expression: &'e Expression,
    pub(crate) tree: &'t Tree,
    pub(crate) new: &'n [Value],
}

/// Which candidates are kept.
#[derive(Clone, Copy)]
pub(crate) enum Test<'e, 't, 'n> {
    /// None: they are counted.
    Nothing,
    /// Each.
    Everything,
    /// Those whose action, with these new values, may come.
    MayCome(Trial<'e, 't, 'n>),
}

/// Whether the candidate is kept.
pub(crate) fn passes(test: Test, candidate: &Candidate) -> bool
    requires { spec.CanTry test }
    ensures { result ≡ spec.passes_filter test.entry candidate.now }
{
    match test {
        Test::Nothing => false,
        Test::Everything => true,
        Test::MayCome(trial) => may_come(trial, candidate),
    }
}

/// Whether the action of the candidate may come.
fn may_come(trial: Trial, candidate: &Candidate) -> bool
    requires { spec.CanAskTrial trial }
    ensures { result ≡ spec.may_come_next trial.entry candidate.now }
{
    let action = action(candidate, trial.new);
    can(trial.tree, trial.expression.expr(), &Env::new(), &action)
}

/// The action of the candidate, `new` having the values of the numbers from 1; a number without a
/// value has the value `0`.
pub(crate) fn action(candidate: &Candidate, new: &[Value]) -> Action
    ensures { result ≡ action_with (spec.new_of new.now) candidate.now }
{
    let terms = candidate.terms();
    let mut values = [Value::of_text(b"0"); 4];
    for (index, term) in terms.iter().enumerate() {
        values[index] = value(term, new);
    }
    Action::new(*candidate.name(), &values[..terms.len()])
}

fn value(term: &Term, new: &[Value]) -> Value
    ensures { result ≡ value_of (spec.new_of new.now) term.now }
{
    match term {
        Term::Known(value) => *value,
        Term::New(number) => match new.get(usize::from(*number).saturating_sub(1)) {
            Some(value) => *value,
            None => Value::of_text(b"0"),
        },
    }
}
