//! A sink in memory.
ghost use Rattle.std.specs.Prelude.{◌≡◌, ◌≤◌, ◌++◌, [], length, not, is_ok, IfOk, OnOk, OnErr};
ghost use Rattle.std.specs.Prelude.{Some};
ghost use Rattle.std.specs.Io.KnownBytes.{append_known};
ghost use Rattle.ix_outside.specs.Counts.{Rose};
ghost use Rattle.ix_outside.specs.Sink.{AppendsPart};
ghost use Rattle.ix_outside.specs.SinkState.{OnlyPuts};
ghost use Rattle.ix_memory.specs.Calls.{next_call};
ghost use Rattle.ix_outside.specs.Counts.{one_more};
ghost use Rattle.ix_memory.specs.inside.MemorySinkState.{fails_to_put, memory_sink_state};

use crate::calls::Calls;
use ix_outside::{Failed, Sink};
use std::alloc::{AllocError, Global};
use std::marker::Model;

/// Takes bytes up to its room.
#[derive(Drop)]
pub struct MemorySink {
    bytes: Vec<u8>,
    room: usize,
    calls: Calls,
    faults: u64,
}

impl Model for MemorySink {
    ghost use Rattle.std.specs.Prelude.{◌≤◌, vec_capacity, vec_len};
    ghost use Rattle.ix_memory.specs.inside.MemorySinkState.{MemorySinkState};

    ghost Value = { MemorySinkState };

    ghost view = { λ s.
        record { bytes = s.bytes.items; room = s.room; calls = s.calls; faults = s.faults } };

    // There is memory for the whole room.
    ghost invariant = { λ s. (vec_len s.bytes ≤ s.room) × (s.room ≤ vec_capacity s.bytes) };
}

impl MemorySink {
    /// No bytes went out yet, and at most `room` may. The calls whose numbers stand in `fail` are
    /// to fail, the first call being number 0. It takes the memory for the whole room.
    pub fn new(alloc: Global, room: usize, fail: Vec<u64>) -> Result<MemorySink, AllocError>
        ensures bytes { IfOk result (λ s. s.bytes ≡ []) }
        ensures room { IfOk result (λ s. s.room ≡ room) }
        ensures calls { IfOk result (λ s. s.calls ≡ record { fail = fail.items; number = 0 }) }
        ensures faults { IfOk result (λ s. s.faults ≡ 0) }
    {
        Ok(MemorySink {
            bytes: Vec::with_capacity(alloc, room)?,
            room,
            calls: Calls::new(fail),
            faults: 0,
        })
    }

    /// The bytes that went out, in order.
    pub fn bytes(&self) -> &[u8]
        ensures value { result.now ≡ self.now.bytes }
        ensures within { length self.now.bytes ≤ self.now.room }
    {
        self.bytes.as_slice()
    }
}

impl Sink for MemorySink {
    ghost state = { memory_sink_state };

    /// Puts the bytes out. It fails exactly where it is told to, or where there would be more bytes
    /// than the room; then none of its bytes go out.
    fn put(&mut self, bytes: &[u8]) -> Result<(), Failed>
        ensures whole { OnOk result
            (Some self.new.bytes ≡ append_known (Some self.old.bytes) bytes.now) }
        ensures part { OnErr result
            (AppendsPart (Some self.old.bytes) bytes.now (Some self.new.bytes)) }
        ensures failed { OnErr result (Rose self.old.faults self.new.faults) }
        ensures exactly { is_ok result ≡ not (fails_to_put self.old (length bytes.now)) }
        ensures ok { OnOk result (self.new
            ≡ record self.old
            { bytes = self.old.bytes ++ bytes.now; calls = next_call self.old.calls }) }
        ensures err { OnErr result (self.new
            ≡ record self.old
            { calls = next_call self.old.calls; faults = one_more self.old.faults }) }

        ensures rest { OnlyPuts (memory_sink_state self.old) (memory_sink_state self.new) }
    {
        let is_told = self.calls.next_fails();
        if is_told || self.room - self.bytes.len() < bytes.len() {
            self.faults = self.faults.saturating_add(1);
            return Err(Failed);
        }
        let taken = self.bytes.extend_from_slice(bytes);
        prove!(taken.is_ok());
        Ok(())
    }
}
