//! The one place where failures are counted.
ghost use Rattle.std.specs.Prelude.{◌≡◌, ◌≤◌};
ghost use Rattle.ix_outside.specs.Counts.{one_more};

/// Counts one failure more, up to 2^64 - 1.
pub fn count_fault(faults: &mut u64)
    ensures value { faults.new ≡ one_more faults.old }
    ensures no_fewer { faults.old ≤ faults.new }
{
    *faults = faults.saturating_add(1);
}
