//! What is to be told to a client.
ghost use Rattle.std.specs.Prelude.{◌≡◌};
ghost use Rattle.ix_watch.specs.inside.Watches as spec;
ghost use Rattle.ix_watch.specs.inside.Kept.{watch_of};
ghost use Rattle.std.specs.Iterator.{YieldsFirstBy, item_count};

use crate::pairs::Pair;
use crate::{Mark, Watches};
use ix_values::{Action, Name};
use std::marker::Model;

/// The actions of a name of which what holds now isn't what was told, in order, with what holds
/// now. Seen as the list of those that are left.
#[derive(Drop)]
pub struct Changes<'a> {
    pub(crate) watches: &'a Watches,
    pub(crate) name: &'a Name,
    /// How many watches were looked at.
    pub(crate) index: usize,
}

impl<'a> Model for Changes<'a> {
    ghost use Rattle.std.specs.Prelude.{Bool, List, drop};
    ghost use Rattle.ix_values.specs.PlainAction.{PlainAction};

    ghost Value = { List (PlainAction × Bool) };

    ghost use Rattle.ix_watch.specs.inside.Watches.{changes_of};

    ghost view = { λ c. changes_of c.name.now (drop c.index c.watches.now) };
}

impl<'a> Iterator for Changes<'a> {
    type Item = (&'a Action, bool);

    ghost next_gives = { YieldsFirstBy (λ change. (change.0.now, change.1)) (λ rest. rest) };

    ghost remaining = { item_count (λ rest. rest) };

    fn next(&mut self) -> Option<(&'a Action, bool)> {
        let len = self.watches.len();
        while self.index < len {
            let (pair, mark) = self.watches.entry(self.index);
            self.index += 1;
            if has_changed(self.name, pair, mark) {
                return Some((&pair.action, mark.holds));
            }
        }
        None
    }
}

fn has_changed(name: &Name, pair: &Pair, mark: &Mark) -> bool
    ensures { result ≡ spec.has_changed name.now (watch_of (pair.now, mark.now)) }
{
    *name == pair.name && differ(mark.told, mark.holds)
}

fn differ(told: bool, now: bool) -> bool
    ensures { result ≡ spec.differ told now }
{
    if told { !now } else { now }
}
