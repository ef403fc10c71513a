//! A sink in memory.

ghost use Rattle.std.specs.Prelude.{◌≡◌, Some, [], IfOk};
ghost use Rattle.cov_io.specs.MemSink.{taken_by, room_of, failing_puts};

use crate::fault_plan::FaultPlan;
use crate::sink::{Sink, SinkFailed};
use std::alloc::{AllocError, Global};

/// A sink in memory, which tells all that it has taken and fails at the puts that it was told.
///
/// A put that is to fail takes nothing. One that passes the sink's room takes as much as fits.
pub struct MemSink {
    bytes: Vec<u8>,
    plan: FaultPlan,
    faults: u64,
}

// Written out: a derived drop is proved anew in each crate above.
impl Drop for MemSink {
    fn drop(self) {
        let MemSink {
            bytes: _,
            plan: _,
            faults: _,
        } = self;
    }
}

impl MemSink {
    /// An empty sink with room for so many bytes. `failing` has the puts that are to fail, which
    /// are numbered from 0.
    pub fn new(alloc: Global, room: usize, failing: Vec<u64>) -> Result<Self, AllocError>
        ensures empty { IfOk result (λ sink. taken_by sink ≡ []) }
        ensures room { IfOk result (λ sink. room_of sink ≡ room) }
        ensures plan { IfOk result (λ sink. failing_puts sink ≡ failing.items) }
        ensures no_faults { IfOk result (λ sink. ⟦<MemSink as Sink>⟧.failures sink ≡ 0) }
    {
        Ok(MemSink {
            bytes: Vec::with_capacity(alloc, room)?,
            plan: FaultPlan::new(failing),
            faults: 0,
        })
    }

    /// All that the sink has taken.
    pub fn as_slice(&self) -> &[u8]
        ensures { result.now ≡ taken_by self.now }
    {
        self.bytes.as_slice()
    }
}

impl Sink for MemSink {
    ghost written = { λ sink. Some (taken_by sink) };

    ghost failures = { λ sink. sink.faults };

    fn put(&mut self, bytes: &[u8]) -> Result<(), SinkFailed> {
        if self.plan.fails_next() {
            self.faults = self.faults.saturating_add(1);
            return Err(SinkFailed);
        }
        let room = self.bytes.capacity() - self.bytes.len();
        let fitting = bytes.len().min(room);
        // There is room for these, so this takes no memory and cannot fail.
        self.bytes.extend_from_slice(&bytes[..fitting]).unwrap();
        if fitting < bytes.len() {
            self.faults = self.faults.saturating_add(1);
            return Err(SinkFailed);
        }
        Ok(())
    }

    fn faults(&self) -> u64 {
        self.faults
    }
}
