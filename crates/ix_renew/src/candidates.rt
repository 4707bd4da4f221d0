//! Words that may serve in place of the history. Nothing is claimed of them: each is tested.

ghost use Rattle.ix_renew.specs.inside.Walking.{CanWalk};

use crate::rules::Rules;
use crate::since::{add_fixed, held_since};
use crate::values::{Moments, entered};
use ix_values::{Action, Value};
use std::alloc::AllocError;

/// Which actions of the history a candidate keeps.
#[derive(Clone, Copy)]
pub(crate) enum Candidate {
    /// Those each of whose values is fixed in the expression, or has had an entry in every tree
    /// since a moment before the action.
    Steady,
    /// Those each of whose values is fixed or has an entry in the history's tree.
    Entered,
    /// Those at least one of whose values has an entry in the history's tree.
    Touched,
}

/// The actions of the history that the candidate keeps.
pub(crate) fn word_of(rules: Rules<'_>, candidate: Candidate) -> Result<Vec<Action>, AllocError>
    requires { CanWalk rules }
{
    let moments = moments_of(rules, candidate)?;
    let mut word = Vec::new(rules.alloc);
    for (index, action) in rules.history.iter().enumerate() {
        if is_kept(&moments, candidate, index, action) {
            word.push(*action)?;
        }
    }
    Ok(word)
}

/// The values by which the candidate keeps actions.
fn moments_of(rules: Rules<'_>, candidate: Candidate) -> Result<Moments, AllocError>
    requires { CanWalk rules }
{
    let mut moments = match candidate {
        Candidate::Steady => held_since(rules)?,
        Candidate::Entered | Candidate::Touched => entered(rules.alloc, rules.last)?,
    };
    if !matches!(candidate, Candidate::Touched) {
        add_fixed(&mut moments, rules.expr)?;
    }
    Ok(moments)
}

fn is_kept(moments: &Moments, candidate: Candidate, index: usize, action: &Action) -> bool {
    match candidate {
        Candidate::Steady | Candidate::Entered => action
            .values()
            .iter()
            .all(|value| has_begun(moments, index, value)),
        Candidate::Touched => action
            .values()
            .iter()
            .any(|value| has_begun(moments, index, value)),
    }
}

/// Whether the value is among these, and its moment comes before the action of this index.
fn has_begun(moments: &Moments, index: usize, value: &Value) -> bool {
    match moments.get(value) {
        Some(moment) => *moment <= index,
        None => false,
    }
}
