//! Laws of the calls that fail.
ghost use Rattle.ix_memory.specs.CallRuns.{FailsWhereTold, NoneFailsUntold};

/// A call of a site fails exactly where its number stands in the list, where as many calls as
/// the fuse says were made before, or where its cost and those of all calls before it are
/// together above the room.
pub fn fails_where_told()
    ensures { FailsWhereTold }
{}

/// In a site where no call is told to fail and there is no fuse, no call fails
/// that there is room for.
pub fn none_fails_untold()
    ensures { NoneFailsUntold }
{}
