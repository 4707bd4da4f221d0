//! A place that takes bytes.
ghost use Rattle.std.specs.Prelude.{◌≡◌, OnOk, OnErr};
ghost use Rattle.std.specs.Io.KnownBytes.{append_known};
ghost use Rattle.ix_outside.specs.Counts.{Rose};
ghost use Rattle.ix_outside.specs.Sink.{AppendsPart};
ghost use Rattle.ix_outside.specs.SinkState.{SinkState, OnlyPuts};

use crate::Failed;

/// Takes bytes in order.
pub trait Sink {
    /// What a proof knows of the object.
    ghost state: { Self → SinkState };

    /// Puts the bytes out, or after a fault some front of them. Whether they are told stays.
    fn put(&mut self, bytes: &[u8]) -> Result<(), Failed>
        ensures whole { OnOk result
            ((state self.new).written ≡ append_known (state self.old).written bytes.now) }
        ensures part { OnErr result
            (AppendsPart (state self.old).written bytes.now (state self.new).written) }
        ensures failed { OnErr result (Rose (state self.old).faults (state self.new).faults) }
        ensures rest { OnlyPuts (state self.old) (state self.new) };
}
