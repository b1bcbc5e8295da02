ghost use Rattle.std.specs.Prelude.{◌≡◌, ◌+◌, [], ◌++◌, Some};

use crate::sink::{Sink, SinkFailed};
use std::alloc::Global;

/// A sink in memory. A growth that is refused is its failure.
#[derive(Drop)]
pub struct MemorySink {
    bytes: Vec<u8>,
    failures: u64,
}

impl MemorySink {
    ghost use Rattle.b3_io.specs.MemorySinks.{sink_bytes};

    /// A sink that holds nothing.
    pub fn new(alloc: Global) -> MemorySink
        ensures bytes { sink_bytes result ≡ [] }
        ensures failures { ⟦<MemorySink as Sink>⟧.failures result ≡ 0 }
    {
        MemorySink {
            bytes: Vec::new(alloc),
            failures: 0,
        }
    }

    /// The bytes that were written.
    pub fn bytes(&self) -> &[u8]
        ensures { result.now ≡ sink_bytes self.now }
    {
        self.bytes.as_slice()
    }
}

impl Sink for MemorySink {
    ghost use Rattle.b3_io.specs.MemorySinks.{sink_bytes};

    ghost failures = { λ sink. sink.failures };

    ghost held = { λ sink. Some (sink_bytes sink) };

    fn write(&mut self, bytes: &[u8]) -> Result<usize, SinkFailed> {
        if self.bytes.extend_from_slice(bytes).is_err() {
            self.failures += 1;
            return Err(SinkFailed);
        }
        Ok(bytes.len())
    }
}
