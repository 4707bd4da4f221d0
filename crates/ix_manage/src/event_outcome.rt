//! What an event makes of a run.
ghost use Rattle.std.specs.Prelude.{◌≡◌, ◌≢◌, length, MatchBool};
ghost use Rattle.ix_outside.specs.Contents.{piece_of};
ghost use Rattle.ix_outside.specs.Event.{KindFits};
ghost use Rattle.ix_outside.specs.declared.event.EventKind.TheVariants.{End};
ghost use Rattle.ix_manager.specs.Runs.{Ending};
ghost use Rattle.ix_manager.specs.inside.OverSite.{EndsBy};
ghost use Rattle.ix_manage.specs.inside.Progress.{IsEventOutcome};

use ix_manager::{Go, Stop};
use ix_outside::EventKind;

/// The most bytes of an event.
pub(crate) const EVENT_ROOM: usize = 4096;

/// What became of a run by an event.
#[derive(Clone, Copy)]
pub(crate) enum EventOutcome {
    /// It may go on.
    More,
    /// The event was the end or brought `stop`.
    Done,
    /// A put of a replay failed, or no event came to a serve since the wire failed.
    Cut,
    /// The disk failed at a confirm.
    Failed,
}

/// `failed` says whether a put failed.
pub(crate) fn outcome_of(failed: bool, go: Result<Go, Stop>, kind: EventKind) -> EventOutcome
    ensures { (ending : Ending) → EndsBy go ending → IsEventOutcome failed ending kind result }
{
    if failed {
        return EventOutcome::Cut;
    }
    match go {
        Ok(Go::Stopped) => EventOutcome::Done,
        Ok(Go::More) => {
            if is_end(kind) {
                EventOutcome::Done
            } else {
                EventOutcome::More
            }
        }
        Err(Stop::Disk) => EventOutcome::Failed,
    }
}

/// The bytes of an event, which stand at the front of the buffer.
pub(crate) fn piece(kind: EventKind, buffer: &[u8]) -> &[u8]
    requires { KindFits (length buffer.now) 0 kind }
    ensures { result.now ≡ piece_of kind buffer.now }
{
    match kind {
        EventKind::Bytes(count) => &buffer[..count],
        EventKind::Closed | EventKind::End => &[],
    }
}

fn is_end(kind: EventKind) -> bool
    ensures { MatchBool result (kind ≡ End) (kind ≢ End) }
{
    match kind {
        EventKind::End => true,
        EventKind::Bytes(_) | EventKind::Closed => false,
    }
}
