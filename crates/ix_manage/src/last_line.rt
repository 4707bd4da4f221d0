//! The last line of a run that stopped before it had its answer.
ghost use Rattle.std.specs.Prelude.{◌≡◌, OnOk, OnErr};
ghost use Rattle.std.specs.Io.KnownBytes.{append_known};
ghost use Rattle.ix_outside.specs.Counts.{Rose};
ghost use Rattle.ix_outside.specs.Sink.{AppendsPart};
ghost use Rattle.ix_outside.specs.SinkState.{OnlyPuts};
ghost use Rattle.ix_manage.specs.inside.Refusal.{other_line};
ghost use Rattle.ix_manage.specs.inside.Leaves.{Finishes};

use crate::early_end::EarlyEnd;
use ix_outside::{Failed, Sink};

/// Puts the last line of a run that stopped before it had its answer, and gives the status.
pub(crate) fn finish<K: Sink>(how: Result<(), EarlyEnd>, out: &mut K) -> u8
    ensures finishes { Finishes how (K.state out.old) (K.state out.new) result }
    ensures puts { OnlyPuts (K.state out.old) (K.state out.new) }
{
    match how {
        Ok(()) => 0,
        Err(EarlyEnd::Output) => 10,
        Err(EarlyEnd::Words { text }) => match out.put(text.as_bytes()) {
            Ok(()) => 2,
            Err(_) => 10,
        },
        Err(EarlyEnd::OtherExpression { kept }) => match put_other(&kept, out) {
            Ok(()) => 8,
            Err(_) => 10,
        },
        Err(EarlyEnd::Refused(refusal)) => match out.put(&refusal.line()) {
            Ok(()) => refusal.status(),
            Err(_) => 10,
        },
    }
}

/// Puts the line that says that the journal is that of the expression of this text.
fn put_other<K: Sink>(kept: &[u8], out: &mut K) -> Result<(), Failed>
    ensures whole { OnOk result ((K.state out.new).written
        ≡ append_known (K.state out.old).written (other_line kept.now)) }
    ensures part { OnErr result (AppendsPart (K.state out.old).written (other_line kept.now)
        (K.state out.new).written) }
    ensures failed { OnErr result (Rose (K.state out.old).faults (K.state out.new).faults) }
    ensures puts { OnlyPuts (K.state out.old) (K.state out.new) }
{
    out.put(b"refused journal other ")?;
    out.put(kept)?;
    out.put(b"\n")
}
