//! One run of `follow`, up to the last line that a refusal puts.
ghost use Rattle.std.specs.Prelude.{◌≡◌, ◌≤◌, []};
ghost use Rattle.ix_cli.specs.Commands.{most_nodes};
ghost use Rattle.ix_outside.specs.FilesState.{OnlyFaults};
ghost use Rattle.ix_outside.specs.SinkState.{OnlyPuts};
ghost use Rattle.ix_manage.specs.FollowLines.{fed_line};
ghost use Rattle.ix_manage.specs.Trace.{Verdict};
ghost use Rattle.ix_manage.specs.inside.Following.{FollowRuns, FollowsLines, PutsFed};
ghost use Rattle.ix_manage.specs.inside.Following.{follow_end, refusal_of};
ghost use Rattle.ix_manage.specs.inside.Leaves.{LeavesOutput};

use crate::early_end::EarlyEnd;
use crate::job::FollowWords;
use crate::load::load_lines;
use crate::refusal::Refusal;
use crate::start::start_follower;
use arrayvec::ArrayVec;
use ix_follow::{Fed, FollowFault, Follower};
use ix_lines::{append, append_number, first_line};
use ix_outside::{Files, Sink};
use std::alloc::Global;

/// Feeds the lines of a file to a follower of the expression.
pub(crate) fn follow<F: Files, K: Sink>(
    alloc: Global,
    names: FollowWords<'_>,
    files: &mut F,
    out: &mut K,
) -> Result<(), EarlyEnd>
    requires least { 1 ≤ names.limit }
    requires most { names.limit ≤ most_nodes }

    ensures leaves { LeavesOutput
        (FollowRuns (F.state files.old) (F.state files.new) names.entry)
        (K.state out.old) (K.state out.new) result }
    ensures files { OnlyFaults (F.state files.old) (F.state files.new) }
    ensures puts { OnlyPuts (K.state out.old) (K.state out.new) }
{
    let mut follower = start_follower(alloc, files, names.expression, names.limit)?;
    let lines = load_lines(alloc, files, names.lines)?;
    feed_lines(alloc, &mut follower, &lines, out)
}

/// Puts a line for each line, and then whether the history is complete.
fn feed_lines<K: Sink>(
    alloc: Global,
    follower: &mut Follower,
    lines: &[u8],
    out: &mut K,
) -> Result<(), EarlyEnd>
    requires { follower.old.history ≡ [] }

    ensures leaves { LeavesOutput (FollowsLines follower.old.form follower.old.limit lines.now)
        (K.state out.old) (K.state out.new) result }
    ensures puts { OnlyPuts (K.state out.old) (K.state out.new) }
{
    let mut rest = lines;
    while !rest.is_empty() {
        let first = first_line(rest);
        feed_line(alloc, follower, first.line, out)?;
        rest = first.rest;
    }
    out.put(verdict(follower))?;
    Ok(())
}

fn feed_line<K: Sink>(
    alloc: Global,
    follower: &mut Follower,
    line: &[u8],
    out: &mut K,
) -> Result<(), EarlyEnd>
    ensures fed { PutsFed follower.old line.now follower.new.history
        (K.state out.old) (K.state out.new) result }
    ensures form { follower.new.form ≡ follower.old.form }
    ensures limit { follower.new.limit ≡ follower.old.limit }
    ensures puts { OnlyPuts (K.state out.old) (K.state out.new) }
{
    let answer = follower.feed(alloc, line)?;
    out.put(&fed_line(answer))?;
    Ok(())
}

fn fed_line(answer: Fed) -> ArrayVec<u8, 64>
    ensures { result.items ≡ fed_line answer }
{
    let mut line = ArrayVec::new();
    match answer {
        Fed::Other => append(&mut line, b"other"),
        Fed::LeftOut => append(&mut line, b"left out"),
        Fed::Early(number) => {
            append(&mut line, b"early ");
            append_number(&mut line, number);
        }
        Fed::Old(number) => {
            append(&mut line, b"old ");
            append_number(&mut line, number);
        }
        Fed::Taken(number) => {
            append(&mut line, b"taken ");
            append_number(&mut line, number);
        }
    }
    append(&mut line, b"\n");
    line
}

impl From<FollowFault> for EarlyEnd {
    ghost from_gives = { λ fault end. end ≡ follow_end fault };

    fn from(fault: FollowFault) -> EarlyEnd {
        EarlyEnd::Refused(refusal_of(fault))
    }
}

fn refusal_of(fault: FollowFault) -> Refusal
    ensures { result ≡ refusal_of fault }
{
    match fault {
        FollowFault::Differs { number } => Refusal::Unfollowed { code: 61, number },
        FollowFault::NotPartial { number } => Refusal::Unfollowed { code: 62, number },
        FollowFault::Full { number } => Refusal::Unfollowed { code: 63, number },
        FollowFault::Over { number, .. } => Refusal::Unfollowed { code: 64, number },
        FollowFault::Memory => Refusal::Memory,
    }
}

fn verdict(follower: &Follower) -> &'static [u8]
    ensures { Verdict follower.now.form follower.now.history result.now }
{
    if follower.is_complete() {
        b"complete\n"
    } else {
        b"partial\n"
    }
}
