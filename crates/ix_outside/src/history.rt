//! A list that only proofs read. It takes no memory, and its methods do nothing at run time.
ghost use Rattle.std.specs.Prelude.{◌≡◌, List, [], ◌∷◌, ◌++◌};
ghost use Rattle.std.specs.Borrow.{ftrue};

use std::marker::{Model, PhantomData};

/// What came to pass, in order, for proofs alone. A clause reads it as `items`.
#[derive(Drop)]
pub struct History<A> {
    of: PhantomData<A>,
    pub ghost items: { List A },
}

impl<A> Model for History<A> {
    ghost also_owns = { λ _. ftrue };
}

impl<A> History<A> {
    /// Nothing came to pass yet.
    pub fn new() -> History<A>
        ensures { result.items ≡ [] }
    {
        History { of: PhantomData }
    }

    /// The history with this item behind the others.
    pub fn and(&self, item: &A) -> History<A>
        ensures { result.items ≡ self.now.items ++ item.now ∷ [] }
    {
        History { of: PhantomData }
    }
}
