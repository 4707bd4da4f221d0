//! A set of alternatives.
ghost use Rattle.std.specs.Prelude.{◌≡◌, ℕ, ◌+◌, ◌≤◌, ◌<◌, ◌^◌, ◌↔◌, [], length, true, false, OnOk};
ghost use Rattle.std.specs.Prelude.{OnErr, IsTrue};
ghost use Rattle.std.specs.BTreeSet.{insert_key};
ghost use Rattle.std.specs.List.{sum_by};
ghost use Rattle.std.specs.List.Sorted.{IsStrictlySortedBy};
ghost use Rattle.std.specs.Slice.Iter.{iter_rest};
ghost use Rattle.ix_alts.specs.inside.Alternatives.{HasItem, ExceedsBudget};

use crate::Weight;
use std::alloc::Global;
use std::marker::Model;
use std::slice::Iter;

/// Why an item was not put into a set.
#[derive(Clone, Copy, Debug, PartialEq, Eq)]
pub enum AltFault {
    /// With the item the set would weigh `size`, which is above its budget.
    Over { budget: usize, size: usize },
    /// Memory ran out.
    Memory,
}

/// Items in ascending order, each once, that together weigh no more than a budget.
#[derive(Drop)]
pub struct AltSet<T: Ord + Weight + Drop> {
    items: Vec<T>,
    total: usize,
    budget: usize,
}

impl<T: Ord + Weight + Drop> Model for AltSet<T> {
    ghost use Rattle.ix_alts.specs.inside.Alternatives.{Alternatives, IsAltSet};

    ghost Value = { Alternatives T };

    ghost view = { λ s. record { items = s.items.items; budget = s.budget } };

    ghost invariant = { λ s. IsAltSet T.Ord.cmp T.weight s.items.items s.total s.budget };
}

impl<T: Ord + Weight + Drop> AltSet<T> {
    /// The empty set. The budget is at most 2^32.
    pub fn new(alloc: Global, budget: usize) -> AltSet<T>
        requires { budget ≤ 2 ^ 32 }
        ensures items { result.items ≡ [] }
        ensures budget { result.budget ≡ budget }
    {
        AltSet {
            items: Vec::new(alloc),
            total: 0,
            budget,
        }
    }

    /// How many items the set has.
    pub fn len(&self) -> usize
        ensures { result ≡ length self.now.items }
    {
        self.items.len()
    }

    /// Whether the set has no item.
    pub fn is_empty(&self) -> bool
        ensures { IsTrue result ↔ (self.now.items ≡ []) }
    {
        self.items.is_empty()
    }

    /// What the items weigh together.
    pub fn total(&self) -> usize
        ensures total { result ≡ sum_by T.weight self.now.items }
        ensures within { result ≤ self.now.budget }
    {
        self.total
    }

    /// The items, in ascending order.
    pub fn iter(&self) -> Iter<'_, T>
        ensures items { iter_rest result ≡ self.now.items }
        ensures ascending { IsStrictlySortedBy T.Ord.cmp self.now.items }
    {
        self.items.iter()
    }

    /// The list of the items, in ascending order.
    pub fn into_items(self) -> Vec<T>
        ensures items { result.items ≡ self.items }
        ensures ascending { IsStrictlySortedBy T.Ord.cmp result.items }
    {
        self.items
    }

    /// Puts an item of at most 2^32 in weight into its place by the order: true where it is new,
    /// false where an equal item is there. An `Err` leaves the set as it was; the item is dropped.
    pub fn insert(&mut self, item: T) -> Result<bool, AltFault>
        requires { T.weight item ≤ 2 ^ 32 }
        ensures list { OnOk result (self.new.items ≡ insert_key T.Ord.cmp self.old.items item) }
        ensures ascending { IsStrictlySortedBy T.Ord.cmp self.new.items }
        ensures within { sum_by T.weight self.new.items ≤ self.new.budget }
        ensures budget { self.new.budget ≡ self.old.budget }
        ensures unchanged { OnErr result (self.new ≡ self.old) }
        ensures found { (result ≡ Ok false) ↔ HasItem T.Ord.cmp self.old.items item }

        // The budget is exceeded exactly where the item is new and too heavy beside the others.
        ensures over { (budget size : ℕ)
            → (result ≡ Err (AltFault.Over budget size))
            ↔ ExceedsBudget T.Ord.cmp T.weight self.old item budget size }
    {
        let Err(place) = self.items.binary_search(&item) else {
            return Ok(false);
        };
        let size = self.total + item.weight();
        if size > self.budget {
            return Err(AltFault::Over {
                budget: self.budget,
                size,
            });
        }
        if self.items.insert(place, item).is_err() {
            return Err(AltFault::Memory);
        }
        self.total = size;
        Ok(true)
    }
}
