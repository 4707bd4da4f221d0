//! The quantifiers around a node.

ghost use Rattle.std.specs.Prelude.{◌≡◌, ◌&&◌, not, nat_le, length};
ghost use Rattle.std.specs.List.{list_all, list_any};
ghost use Rattle.ix_expr.specs.FormFaults as faults;
ghost use Rattle.ix_expr.specs.inside.Scope.{binders};

use crate::arg::Arg;
use crate::atom::Atom;
use ix_values::Name;

/// The quantifiers around a node, the inmost first.
#[derive(Clone, Copy)]
pub(crate) enum Scope<'a> {
    /// None: the node is the root of a whole expression.
    Whole,
    /// One more than around the node `outer`.
    Inside {
        is_all: bool,
        parameter: &'a Name,
        outer: &'a Scope<'a>,
    },
}

impl Scope<'_> {
    pub(crate) fn binds(&self, parameter: &Name) -> bool
        ensures { result ≡ faults.is_bound (binders self.now) parameter.now }
    {
        match self {
            Scope::Whole => false,
            Scope::Inside {
                parameter: bound,
                outer,
                ..
            } => *bound == parameter || outer.binds(parameter),
        }
    }

    /// Whether there are at least `count` quantifiers.
    pub(crate) fn has(&self, count: u8) -> bool
        ensures { result ≡ nat_le count (length (binders self.now)) }
    {
        match self {
            Scope::Whole => count == 0,
            Scope::Inside { outer, .. } => count == 0 || outer.has(count - 1),
        }
    }

    /// Whether one of the quantifiers is an `all` whose parameter the atom doesn't name.
    pub(crate) fn misses(&self, atom: &Atom) -> bool
        ensures { result
            ≡ list_any (λ b. b.is_all && not (faults.names_parameter b.parameter atom.now))
            (binders self.now) }
    {
        match self {
            Scope::Whole => false,
            Scope::Inside {
                is_all,
                parameter,
                outer,
            } => (*is_all && !atom.names_parameter(parameter)) || outer.misses(atom),
        }
    }

    pub(crate) fn binds_all(&self, atom: &Atom) -> bool
        ensures { result
            ≡ list_all (faults.is_bound_argument (binders self.now)) atom.now.arguments }
    {
        atom.args().iter().all(|arg| self.binds_argument(arg))
    }

    fn binds_argument(&self, arg: &Arg) -> bool
        ensures { result ≡ faults.is_bound_argument (binders self.now) arg.now }
    {
        match arg {
            Arg::Fixed(_) => true,
            Arg::Param(parameter) => self.binds(parameter),
        }
    }
}
