ghost use Rattle.std.specs.Prelude.{◌≡◌};

use crate::retrying::write_retrying;
use b3_io::{Sink, SinkFailed};
use std::io::Write;

/// A sink over a writer.
#[derive(Drop)]
pub struct OutputSink<W> {
    writer: W,
    is_gathering: bool,
    failures: u64,
}

impl<W: Write> OutputSink<W> {
    /// A sink over a writer, which no write has failed. A line is written as soon as it is due.
    pub fn new(writer: W) -> OutputSink<W>
        ensures writer { result.writer ≡ writer }
        ensures failures { result.failures ≡ 0 }
    {
        OutputSink {
            writer,
            is_gathering: false,
            failures: 0,
        }
    }

    /// The same sink; lines that come soon after one another go in one write, or do not.
    pub fn gathering(self, is_gathering: bool) -> OutputSink<W>
        ensures writer { result.writer ≡ self.writer }
        ensures failures { result.failures ≡ self.failures }
    {
        OutputSink {
            is_gathering,
            ..self
        }
    }

    /// The writer, with what was written.
    pub fn into_writer(self) -> W
        ensures { result ≡ self.writer }
    {
        self.writer
    }
}

impl<W: Write> Sink for OutputSink<W> {
    ghost failures = { λ sink. sink.failures };

    ghost held = { λ sink. W.contents sink.writer };

    fn write(&mut self, bytes: &[u8]) -> Result<usize, SinkFailed> {
        if bytes.is_empty() {
            return Ok(0);
        }
        match write_retrying(&mut self.writer, bytes) {
            Ok(count) if count > 0 => Ok(count),
            _ => {
                self.failures += 1;
                Err(SinkFailed)
            }
        }
    }

    fn may_wait(&self) -> bool {
        self.is_gathering
    }
}
