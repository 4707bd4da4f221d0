//! Environments that can be read.

ghost use Rattle.std.specs.Prelude.{◌≡◌, ◌<◌, false, [], length, reverse};
ghost use Rattle.ix_expr.specs.Environment.{bind};
ghost use Rattle.ix_expr.specs.FormFaults.{binders_of, is_bound};

use crate::bindings::Bindings;
use ix_expr::Env;
use ix_values::{Name, Value};
use std::marker::Model;

/// An environment, and the list of what it binds. Contracts see the environment.
#[derive(Drop)]
pub(crate) struct Scope {
    env: Env,
    bound: Bindings,
}

impl Model for Scope {
    ghost use Rattle.std.specs.Prelude.{◌≡◌, ℕ, reverse};
    ghost use Rattle.std.specs.Coded.{coded_list, coded_ℕ, coded_option, coded×};
    ghost use Rattle.ix_expr.specs.Environment.{Environment};

    ghost Value = { Environment };

    ghost view = { λ s. s.env };

    ghost invariant = { λ s. s.bound ≡ reverse s.env };
}

impl Scope {
    /// No parameter.
    pub(crate) fn new() -> Scope
        ensures { result ≡ [] }
    {
        Scope {
            env: Env::new(),
            bound: Bindings::new(),
        }
    }

    /// This scope with the parameter given the value, where None is outside.
    pub(crate) fn with(&self, parameter: &Name, value: Option<Value>) -> Scope
        requires room { length self.now < 8 }
        requires free { is_bound (binders_of self.now) parameter.now ≡ false }
        ensures { result ≡ bind parameter.now value self.now }
    {
        let mut bound = self.bound;
        bound.push(parameter, &value);
        let mut env = self.env;
        env.bind(*parameter, value);
        Scope { env, bound }
    }

    /// The environment.
    pub(crate) fn env(&self) -> &Env
        ensures { result.now ≡ self.now }
    {
        &self.env
    }

    /// What it binds, the outermost first.
    pub(crate) fn bound(&self) -> Bindings
        ensures { result ≡ reverse self.now }
    {
        self.bound
    }
}
