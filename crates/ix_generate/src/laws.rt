//! The laws of the workload, each the contract of a function with an empty body.

ghost use Rattle.std.specs.Prelude.{◌≡◌};
ghost use Rattle.ix_generate.specs.Laws.{ActionsTellAsksApart, DrawsGoByTheHistory};
ghost use Rattle.ix_generate.specs.Workload.{examinations};

use crate::EXAMINATIONS;

/// The text of the expression, byte by byte.
pub fn the_text_of_the_expression()
    ensures { EXAMINATIONS.now ≡ examinations }
{}

/// What is drawn goes by the granted asks so far: a patient whose last one is a call is asked for
/// its performance, and any other is called.
pub fn draws_go_by_the_history()
    ensures { DrawsGoByTheHistory }
{}

/// Two asks with one action are the same, so what `granted` notes is told by the action.
pub fn actions_tell_asks_apart()
    ensures { ActionsTellAsksApart }
{}
