//! Pairs of a name and an action, as keys of a map.
ghost use Rattle.std.specs.Prelude.{◌≡◌};
ghost use Rattle.ix_watch.specs.lemmas.Pairs.{pair_eq, pair_eq-partial, pair_eq-equiv};
ghost use Rattle.ix_watch.specs.lemmas.Pairs.{hash_input_of, hash_input_of-respects_eq};

use ix_values::{Action, Name};
use std::hash::{Hash, Hasher};

/// A client's name, and an action.
#[derive(Clone, Copy)]
pub(crate) struct Pair {
    pub(crate) name: Name,
    pub(crate) action: Action,
}

impl PartialEq for Pair {
    ghost eq = { pair_eq };

    ghost laws = { pair_eq-partial };

    fn eq(&self, other: &Pair) -> bool {
        self.name == other.name && self.action == other.action
    }
}

impl Eq for Pair {
    ghost laws = { pair_eq-equiv };
}

impl Hash for Pair {
    ghost hash_input = { hash_input_of };

    ghost respects_eq = { hash_input_of-respects_eq };

    fn hash<H: Hasher>(&self, state: &mut H) {
        state.write(self.name.bytes());
        state.write(self.action.name().bytes());
        for value in self.action.values() {
            state.write(value.bytes());
        }
    }
}
