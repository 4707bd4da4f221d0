//! Whether two atoms can match one action with one parameter given different values.

ghost use Rattle.std.specs.Prelude.{◌≡◌, []};
ghost use Rattle.std.specs.List.{list_any};
ghost use Rattle.ix_lint.specs.Nodes.{binds};
ghost use Rattle.ix_lint.specs.Terms as spec;
ghost use Rattle.ix_lint.specs.Owners as owners;
ghost use Rattle.ix_lint.specs.inside.Above.{forms_of};
ghost use Rattle.ix_lint.specs.inside.Search.{pairs_of_replaced};

use crate::above::Above;
use ix_expr::Arg;
use ix_values::{Name, Value};

/// What an argument of one of two atoms stands for.
#[derive(Clone, Copy)]
pub(crate) enum Term {
    /// A value of its own.
    Value(Value),
    /// A parameter that has the same value for both atoms.
    Shared(Name),
    /// A parameter of the first atom.
    OfFirst(Name),
    /// A parameter of the second atom.
    OfSecond(Name),
}

/// Terms that were replaced by others, one after the other.
#[derive(Clone, Copy)]
pub(crate) enum Replaced<'a> {
    Nothing,
    /// After those before it, the term `from` was replaced by `to`.
    One {
        from: &'a Term,
        to: &'a Term,
        before: &'a Replaced<'a>,
    },
}

/// Whether one of the nodes above an atom binds the parameter, which then is the atom's own.
fn is_own(above: &Above, name: &Name) -> bool
    ensures { result ≡ list_any (binds name.now) (forms_of above.now) }
{
    above.binds(name.bytes())
}

fn first_term(above: &Above, arg: &Arg) -> Term
    ensures { result ≡ spec.first_term (forms_of above.now) arg.now }
{
    match arg {
        Arg::Fixed(value) => Term::Value(*value),
        Arg::Param(name) => {
            if is_own(above, name) {
                Term::OfFirst(*name)
            } else {
                Term::Shared(*name)
            }
        }
    }
}

fn second_term(above: &Above, arg: &Arg) -> Term
    ensures { result ≡ spec.second_term (forms_of above.now) arg.now }
{
    match arg {
        Arg::Fixed(value) => Term::Value(*value),
        Arg::Param(name) => {
            if is_own(above, name) {
                Term::OfSecond(*name)
            } else {
                Term::Shared(*name)
            }
        }
    }
}

fn same_term(one: &Term, other: &Term) -> bool
    ensures { result ≡ spec.same_term one.now other.now }
{
    match (one, other) {
        (Term::Value(own), Term::Value(value)) => own == value,
        (Term::Shared(own), Term::Shared(name)) => own == name,
        (Term::OfFirst(own), Term::OfFirst(name)) => own == name,
        (Term::OfSecond(own), Term::OfSecond(name)) => own == name,
        _ => false,
    }
}

fn is_value(term: &Term) -> bool
    ensures { result ≡ spec.is_value_term term.now }
{
    matches!(term, Term::Value(_))
}

impl Replaced<'_> {
    /// What the term became.
    fn resolve(&self, term: &Term) -> Term
        ensures { result ≡ spec.resolved (pairs_of_replaced self.now) term.now }
    {
        match self {
            Replaced::Nothing => *term,
            Replaced::One { from, to, before } => {
                let resolved = before.resolve(term);
                if same_term(&resolved, from) {
                    **to
                } else {
                    resolved
                }
            }
        }
    }
}

/// Whether what became of the parameter of the first atom isn't what became of that of the second.
fn still_differs(parameter: &Name, replaced: &Replaced) -> bool
    ensures { result
        ≡ spec.can_differ (pairs_of_replaced replaced.now) []
        (Term.OfFirst parameter.now, Term.OfSecond parameter.now) }
{
    let one = replaced.resolve(&Term::OfFirst(*parameter));
    let other = replaced.resolve(&Term::OfSecond(*parameter));
    !same_term(&one, &other)
}

/// Whether the parameter can have different values for two atoms while the arguments of the one
/// have the values of the other's in the same places, as far as both go.
pub(crate) fn can_differ(
    parameter: &Name,
    args: &[Arg],
    above: &Above,
    others: &[Arg],
    other_above: &Above,
    replaced: &Replaced,
) -> bool
    ensures { result
        ≡ spec.can_differ (pairs_of_replaced replaced.now)
        (owners.owner_pairs (forms_of above.now) args.now
        (forms_of other_above.now) others.now)
        (Term.OfFirst parameter.now, Term.OfSecond parameter.now) }
{
    match args {
        [] => still_differs(parameter, replaced),
        [arg, args @ ..] => match others {
            [] => still_differs(parameter, replaced),
            [other, others @ ..] => {
                let one = replaced.resolve(&first_term(above, arg));
                let other = replaced.resolve(&second_term(other_above, other));
                if same_term(&one, &other) {
                    return can_differ(parameter, args, above, others, other_above, replaced);
                }
                if is_value(&one) && is_value(&other) {
                    return false;
                }
                let (from, to) = if is_value(&one) {
                    (&other, &one)
                } else {
                    (&one, &other)
                };
                let replaced = Replaced::One {
                    from,
                    to,
                    before: &*replaced,
                };
                can_differ(parameter, args, above, others, other_above, &replaced)
            }
        },
    }
}
