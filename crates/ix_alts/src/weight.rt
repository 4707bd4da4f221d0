//! What a set of alternatives asks of its items.
ghost use Rattle.std.specs.Prelude.{◌≡◌, ℕ, ◌≤◌, ◌^◌};
ghost use Rattle.std.specs.declared.cmp.Ordering.TheVariants.{Equal};

/// Items that weigh something, equal items the same.
pub trait Weight: Ord {
    ghost weight: { Self → ℕ };

    /// The item's weight. It is at most 2^32.
    fn weight(&self) -> usize
        requires { weight self.now ≤ 2 ^ 32 }
        ensures { result ≡ weight self.now };

    ghost equal_items_weigh_alike: { (x y : Self) → Self.cmp x y ≡ Equal → weight x ≡ weight y };
}
