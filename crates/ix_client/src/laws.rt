//! Laws of grants and links.
ghost use Rattle.ix_client.specs.ClientLaws.{DoneRunsArePermanent, RefusalsLast};
ghost use Rattle.ix_client.specs.Laws.{DoneIsPermanent, GrantsStand, NeverIsPermanent};
ghost use Rattle.ix_client.specs.Laws.{OddAnswersHaveACause, SoundStatesLast, StandingGrantsLast};
ghost use Rattle.ix_client.specs.Laws.{UnsureHasACause};

/// A sound state stays sound at each step, and whatever comes later.
pub fn sound_states_last()
    ensures { SoundStatesLast }
{}

/// A grant that stands goes on to stand at each step, and whatever comes later.
pub fn standing_grants_last()
    ensures { StandingGrantsLast }
{}

/// Over every link, a confirm, a cancel or a settling is unsure only where one of the two counts
/// rose. A confirm or a cancel is expired, and an ask finds no memory or an odd reply, only where a
/// line came that wasn't an expected reply. An ask blames the link only where its call failed.
pub fn odd_answers_have_a_cause()
    ensures { OddAnswersHaveACause }
{}

/// Over a link that tells its manager, a grant that an ask gives stands, and one that is handed
/// back stands where the one that was given did.
pub fn grants_stand()
    ensures { GrantsStand }
{}

/// Over a link that tells its manager, after a confirm or a settling of a grant that stood answered
/// that it is done, its ticket and its action are the pair of that number in every later history.
pub fn done_is_permanent()
    ensures { DoneIsPermanent }
{}

/// Over a link that tells its manager, after a settling answered never, a confirm expired, or a
/// cancel expired or done, no later history has the grant's ticket.
pub fn never_is_permanent()
    ensures { NeverIsPermanent }
{}

/// Over a link that tells its manager, of a grant that stands: settling is unsure only where its
/// call failed, and a confirm or a cancel only there or where 30 or 91 is the reply. An ask whose
/// call didn't fail answers by the reply of its step.
pub fn unsure_has_a_cause()
    ensures { UnsureHasACause }
{}

/// Over a link that tells its manager at the call and at its end: where a run of `client` ended
/// with `done` and a number, the pair of that number, in every later history too, is the action
/// with a ticket that was granted in that run.
pub fn done_runs_are_permanent()
    ensures { DoneRunsArePermanent }
{}

/// Over such a link, where a run of `client` ended with a refusal, an ask of its action at its end
/// is refused so again, unless memory runs out.
pub fn refusals_last()
    ensures { RefusalsLast }
{}
