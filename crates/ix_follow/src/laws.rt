//! Laws of following, each the contract of a function with an empty body.

ghost use Rattle.ix_follow.specs.Laws.{FollowersCatchUp, FollowersHoldAPrefix};

/// A new follower that is fed lines of a manager's log, with any losses, repeats and order, has a
/// prefix of the manager's history, and no fault but want of memory came: where both have the same
/// expression, the follower's limit is not below the manager's, and each line that is an entry
/// tells the action that the manager has at its number. `may` and `is_complete` answer by the
/// history that the follower has.
pub fn followers_hold_a_prefix()
    ensures { FollowersHoldAPrefix }
{}

/// Where memory never ran out and the lines have the entries 1, 2 and so on up to a number among
/// them, in this order, the follower has at least so many actions.
pub fn followers_catch_up()
    ensures { FollowersCatchUp }
{}
