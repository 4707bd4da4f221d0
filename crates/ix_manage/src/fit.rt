//! Whether words that `clap` takes as any text are what they must be.
ghost use Rattle.std.specs.Prelude.{◌↔◌, IsTrue};
ghost use Rattle.ix_cli.specs.inside.Jobs.{job_of};
ghost use Rattle.ix_manage.specs.Desk.{HasFitWords};

use ix_cli::Job;
use ix_next::are_given;
use ix_values::Action;

/// Whether the action of a `why` is one, and the values of a `next` are given values.
pub(crate) fn has_fit_words(job: &Job) -> bool
    ensures { IsTrue result ↔ HasFitWords (job_of job.now) }
{
    match job {
        Job::Why { action, .. } => Action::read(action.as_bytes()).is_ok(),
        Job::Next { values, .. } => are_given(values.as_slice()),
        _ => true,
    }
}
