//! One run of the program, up to the last line that a refusal puts.
ghost use Rattle.std.specs.Prelude.{◌≡◌, ℕ, List, false, map, string_bytes};
ghost use Rattle.ix_cli.specs.Words.{Names};
ghost use Rattle.ix_cli.specs.inside.Jobs.{job_of};
ghost use Rattle.ix_outside.specs.FilesState.{OnlyFaults};
ghost use Rattle.ix_outside.specs.SinkState.{OnlyPuts};
ghost use Rattle.ix_manage.specs.Around.{around_of};
ghost use Rattle.ix_manage.specs.Desk.{HasFitWords};
ghost use Rattle.ix_manage.specs.Ends.{EndsOver, JobOver};
ghost use Rattle.ix_manage.specs.inside.EarlyEnds.{words_end};
ghost use Rattle.ix_manage.specs.inside.Leaves.{LeavesOutput};

use crate::bound::bound;
use crate::early_end::EarlyEnd;
use crate::fit::has_fit_words;
use crate::follow::follow;
use crate::job::{
    FollowWords, HistoryWords, RenewWords, ReplayWords, ServeWords, StuckWords, TraceWords,
    WorkWords,
};
use crate::lint::lint;
use crate::next::next;
use crate::refusal::Refusal;
use crate::renew::renew;
use crate::replay::replay;
use crate::serve::serve;
use crate::simplify::simplify;
use crate::stuck::stuck;
use crate::trace::trace;
use crate::why::why;
use crate::work::work;
use ix_cli::{Job, WordsFault, read_words};
use ix_outside::{Files, Sink, Site};
use std::alloc::Global;

/// A refusal's line isn't put yet.
pub(crate) fn run<F: Files, S: Site, K: Sink>(
    alloc: Global,
    words: &[String],
    files: &mut F,
    site: &mut S,
    out: &mut K,
) -> Result<(), EarlyEnd>
    requires { (S.state site.old).attached ≡ false }

    ensures leaves { LeavesOutput
        (EndsOver (map string_bytes words.now)
        (around_of (F.state files.old) (F.state files.new) (S.state site.old) (S.state site.new))
        (S.crashes site.new))
        (K.state out.old) (K.state out.new) result }
    ensures files { OnlyFaults (F.state files.old) (F.state files.new) }
    ensures puts { OnlyPuts (K.state out.old) (K.state out.new) }
{
    let job = read_words(alloc, words)?;
    if !has_fit_words(&job) {
        return Err(EarlyEnd::Refused(Refusal::Words));
    }
    run_job(alloc, &job, files, site, out)
}

impl From<WordsFault> for EarlyEnd {
    ghost from_gives = { λ fault end. end ≡ words_end fault };

    fn from(fault: WordsFault) -> EarlyEnd {
        match fault {
            WordsFault::Bad { text } => EarlyEnd::Words { text },
            WordsFault::Memory => EarlyEnd::Refused(Refusal::Memory),
        }
    }
}

/// Does the job that the words name.
fn run_job<F: Files, S: Site, K: Sink>(
    alloc: Global,
    job: &Job,
    files: &mut F,
    site: &mut S,
    out: &mut K,
) -> Result<(), EarlyEnd>
    requires named { (words : List (List ℕ)) × Names words (job_of job.now) }
    requires fit { HasFitWords (job_of job.now) }
    requires attached { (S.state site.old).attached ≡ false }

    ensures leaves { LeavesOutput
        (JobOver
        (around_of (F.state files.old) (F.state files.new) (S.state site.old) (S.state site.new))
        (job_of job.now) (S.crashes site.new))
        (K.state out.old) (K.state out.new) result }
    ensures files { OnlyFaults (F.state files.old) (F.state files.new) }
    ensures puts { OnlyPuts (K.state out.old) (K.state out.new) }
{
    match job {
        Job::Trace {
            expr,
            actions,
            nodes,
        } => {
            let names = TraceWords {
                expression: expr.as_str(),
                actions: actions.as_str(),
                limit: *nodes,
            };
            trace(alloc, names, files, out)
        }
        Job::Replay {
            expr,
            journal,
            script,
            nodes,
            turns,
        } => {
            let names = ReplayWords {
                expression: expr.as_str(),
                journal: journal.as_str(),
                script: script.as_str(),
                limit: *nodes,
                turns: *turns,
            };
            replay(alloc, names, files, site, out)
        }
        Job::Serve {
            expr,
            journal,
            socket,
            nodes,
            turns,
        } => {
            let names = ServeWords {
                expression: expr.as_str(),
                journal: journal.as_str(),
                socket: socket.as_str(),
                limit: *nodes,
                turns: *turns,
            };
            serve(alloc, names, files, site, out)
        }
        Job::Work { count, seed, nodes } => {
            let names = WorkWords {
                count: *count,
                seed: *seed,
                limit: *nodes,
            };
            work(alloc, names, out)
        }
        Job::Simplify { expr } => simplify(alloc, expr.as_str(), files, out),
        Job::Bound { expr, count } => bound(alloc, expr.as_str(), *count, files, out),
        Job::Follow { expr, lines, nodes } => {
            let names = FollowWords {
                expression: expr.as_str(),
                lines: lines.as_str(),
                limit: *nodes,
            };
            follow(alloc, names, files, out)
        }
        Job::Lint { expr } => lint(alloc, expr.as_str(), files, out),
        Job::Why {
            expr,
            actions,
            action,
            nodes,
        } => {
            let names = HistoryWords {
                expression: expr.as_str(),
                actions: actions.as_str(),
                limit: *nodes,
            };
            why(alloc, names, action.as_str(), files, out)
        }
        Job::Next {
            expr,
            actions,
            values,
            nodes,
        } => {
            let names = HistoryWords {
                expression: expr.as_str(),
                actions: actions.as_str(),
                limit: *nodes,
            };
            next(alloc, names, values.as_slice(), files, out)
        }
        Job::Stuck {
            expr,
            values,
            nodes,
            states,
        } => {
            let names = StuckWords {
                expression: expr.as_str(),
                values: values.as_str(),
                limit: *nodes,
                states: *states as usize,
            };
            stuck(alloc, names, files, out)
        }
        Job::Renew {
            expr,
            journal,
            new,
            nodes,
        } => {
            let names = RenewWords {
                expression: expr.as_str(),
                journal: journal.as_str(),
                new: new.as_str(),
                limit: *nodes,
            };
            renew(alloc, names, files, site, out)
        }
    }
}
