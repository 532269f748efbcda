// A writer of the host as a sink.
ghost use Rattle.std.specs.Prelude.{◌≡◌};

use crate::sinks::{Failed, Sink};
use crate::transfer::write_whole;
use std::io::Write;

/// A sink over a writer, as standard output. What it took is what the writer holds, where the writer
/// tells that.
#[derive(Drop)]
pub struct HostSink<W: Write + Drop> {
    writer: W,
    faults: u64,
}

impl<W: Write + Drop> HostSink<W> {
    pub fn new(writer: W) -> HostSink<W>
        ensures taken { ⟦<HostSink<W> as Sink>⟧.taken result ≡ W.contents writer }
        ensures faults { ⟦<HostSink<W> as Sink>⟧.faults result ≡ 0 }
    {
        HostSink { writer, faults: 0 }
    }
}

impl<W: Write + Drop> Sink for HostSink<W> {
    ghost taken = { λ s. W.contents s.writer };

    ghost faults = { λ s. s.faults };

    fn put(&mut self, bytes: &[u8]) -> Result<(), Failed> {
        let result = write_whole(&mut self.writer, bytes);
        if result.is_err() {
            self.faults = self.faults.saturating_add(1);
        }
        result
    }
}
