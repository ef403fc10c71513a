//! A sink over a writer, as standard output.

ghost use Rattle.std.specs.Prelude.{◌≡◌, None};

use crate::sink::{Sink, SinkFailed};
use std::io::Write;

/// A sink over the writer `W`, which tells nothing of what it has taken.
#[derive(Drop)]
pub struct HostSink<W: Write + Drop> {
    writer: W,
    faults: u64,
}

impl<W: Write + Drop> HostSink<W> {
    /// A sink that writes to `writer`, with no fault counted.
    pub fn new(writer: W) -> Self
        ensures { ⟦<HostSink<W> as Sink>⟧.failures result ≡ 0 }
    {
        HostSink { writer, faults: 0 }
    }
}

impl<W: Write + Drop> Sink for HostSink<W> {
    ghost written = { λ _. None };

    ghost failures = { λ sink. sink.faults };

    // `write_all` tries an interrupted write again, and fails where the writer takes nothing.
    fn put(&mut self, bytes: &[u8]) -> Result<(), SinkFailed> {
        if self.writer.write_all(bytes).is_err() || self.writer.flush().is_err() {
            self.faults = self.faults.saturating_add(1);
            return Err(SinkFailed);
        }
        Ok(())
    }

    fn faults(&self) -> u64 {
        self.faults
    }
}
