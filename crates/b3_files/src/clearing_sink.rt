//! A sink that takes the line of progress away before it writes, round any other.

ghost use Rattle.std.specs.Prelude.{◌≡◌};

use b3_io::{Sink, SinkFailed};
use b3_progress::{Progress, Terminal};
use std::io::Write;
use std::rt::Clock;
use std::sync::{MutexGuard, Wait};

/// Takes what the sink within takes. The line goes away through the writer that showed it, and no other comes while the
/// sink within writes.
#[derive(Drop)]
pub struct ClearingSink<'p, R: Wait, K, C, W> {
    rt: &'p R,
    inner: K,
    // whether what is written may come to stand on the terminal of the line
    is_terminal: bool,
    progress: &'p Progress<C, W>,
}

impl<'p, R: Wait, K: Sink, C: Clock, W: Write> ClearingSink<'p, R, K, C, W> {
    /// The sink within writes to a terminal, or does not.
    pub fn new(
        rt: &'p R,
        inner: K,
        is_terminal: bool,
        progress: &'p Progress<C, W>,
    ) -> ClearingSink<'p, R, K, C, W>
        ensures { result.inner ≡ inner }
    {
        ClearingSink {
            rt,
            inner,
            is_terminal,
            progress,
        }
    }

    /// The sink within.
    pub fn into_inner(self) -> K
        ensures { result ≡ self.entry.inner }
    {
        self.inner
    }

    // The terminal of the line, if what is written comes to stand there.
    fn cleared(&self) -> Option<MutexGuard<'p, Terminal<W>>> {
        if !self.is_terminal {
            return None;
        }
        self.progress.cleared(self.rt)
    }
}

// It has no clause of its own: those of the trait hold of it as they hold of the sink within.
impl<R: Wait, K: Sink, C: Clock, W: Write> Sink for ClearingSink<'_, R, K, C, W> {
    ghost failures = { λ sink. K.failures sink.inner };

    ghost held = { λ sink. K.held sink.inner };

    fn write(&mut self, bytes: &[u8]) -> Result<usize, SinkFailed> {
        let cleared = self.cleared();
        let count = self.inner.write(bytes)?;
        if let Some(mut terminal) = cleared {
            terminal.note_output(&bytes[..count]);
        }
        Ok(count)
    }

    fn may_wait(&self) -> bool {
        self.inner.may_wait()
    }
}
