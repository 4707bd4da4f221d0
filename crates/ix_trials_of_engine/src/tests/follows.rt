//! What a follower asks for, and whether an action may be next. What it answers to each line is in
//! `bench/commands`.

ghost use Rattle.std.specs.Prelude.{◌≤◌};
ghost use Rattle.ix_step.specs.inside.Limits.{most_size};

use super::{action, expression};
use arrayvec::ArrayVec;
use ix_follow::{Fed, FollowFault, Follower};
use std::alloc::Global;
use std::test::Fail;

// A new follower of the expression under this limit.
fn new_follower(alloc: Global, text: &str, limit: usize) -> Result<Follower, Fail>
    requires least { 1 ≤ limit }
    requires most { limit ≤ most_size }
{
    match Follower::new(alloc, expression(alloc, text)?, limit) {
        Ok(follower) => Ok(follower),
        Err(_) => Err("no follower".into()),
    }
}

// Whether this is the request for the next entry.
fn wants(follower: &Follower, request: &[u8]) -> bool {
    let mut out = ArrayVec::<u8, 256>::new();
    follower.wanted(&mut out);
    out.as_slice() == request
}

// Whether a follower of `a - b` asks for each entry in turn, and goes on behind a refused one.
fn asks_in_turn(alloc: Global) -> Result<bool, Fail> {
    let next = action("b")?;
    let mut follower = new_follower(alloc, "a - b", 100)?;
    let begins = wants(&follower, b"log 1\n") && !follower.may(&next);
    let taken = follower.feed(alloc, b"entry 1 a") == Ok(Fed::Taken(1));
    let refused = follower.feed(alloc, b"entry 1 b") == Err(FollowFault::Differs { number: 1 });
    let goes_on = wants(&follower, b"log 2\n") && follower.may(&next);
    let ends = follower.feed(alloc, b"entry 2 b") == Ok(Fed::Taken(2));
    Ok(begins && taken && refused && goes_on && ends && follower.history().len() == 2)
}

#[test]
fn entries_are_asked_for_in_turn(rt: HostRuntime) -> Result<(), Fail> {
    assert!(rt; asks_in_turn(rt.alloc())?);
    Ok(())
}
