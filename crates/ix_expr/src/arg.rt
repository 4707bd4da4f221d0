//! Arguments of atoms.

ghost use Rattle.std.specs.Prelude.{◌≡◌};
ghost use Rattle.ix_expr.specs.FormFaults as faults;

use ix_values::{Name, Value};

/// An argument of an atom: a value of its own, or a parameter by its name.
#[derive(Clone, Copy, Debug)]
pub enum Arg {
    Fixed(Value),
    Param(Name),
}

impl Arg {
    /// Whether the argument is the parameter.
    pub fn is_parameter(&self, parameter: &Name) -> bool
        ensures { result ≡ faults.is_parameter parameter.now self.now }
    {
        match self {
            Arg::Fixed(_) => false,
            Arg::Param(name) => parameter == name,
        }
    }
}
