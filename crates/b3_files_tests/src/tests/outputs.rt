// The sinks over writers.

use super::asserts::{assert_same, assert_that};
use b3_check::{Sink, SinkFailed};
use b3_files::OutputSink;
use std::io::{self, ErrorKind, Write};

// Is interrupted so often before each call that it lets through.
#[derive(Drop)]
struct Interrupted<T> {
    inner: T,
    interruptions: u64,
    left: u64,
}

impl<T> Interrupted<T> {
    fn new(inner: T, interruptions: u64) -> Interrupted<T> {
        Interrupted {
            inner,
            interruptions,
            left: interruptions,
        }
    }
}

impl<T: Write> Write for Interrupted<T> {
    fn write(&mut self, buf: &[u8]) -> io::Result<usize> {
        if self.left > 0 {
            self.left -= 1;
            return Err(io::Error::from(ErrorKind::Interrupted));
        }
        self.left = self.interruptions;
        self.inner.write(buf)
    }

    fn flush(&mut self) -> io::Result<()> {
        self.inner.flush()
    }
}

// A call is made a thousand times at most.
#[test]
fn an_interrupted_write_is_made_again(rt: HostRuntime) {
    for (interruptions, written) in [
        (1, Ok(4)),
        (300, Ok(4)),
        (999, Ok(4)),
        (1_000, Err(SinkFailed)),
    ] {
        let mut buffer = [0; 8];
        let mut sink = OutputSink::new(Interrupted::new(buffer.as_mut_slice(), interruptions));
        assert_same(&rt, sink.write(b"four"), written);
    }
}

#[test]
fn a_writer_that_takes_nothing_fails(rt: HostRuntime) {
    let mut buffer = [0; 3];
    let mut sink = OutputSink::new(buffer.as_mut_slice());
    assert_same(&rt, sink.write(b"four"), Ok(3));
    assert_same(&rt, sink.write(b""), Ok(0));
    assert_same(&rt, sink.write(b"r"), Err(SinkFailed));
}

#[test]
fn lines_may_wait_where_the_sink_gathers(rt: HostRuntime) {
    let mut buffer = [0; 3];
    let sink = OutputSink::new(buffer.as_mut_slice());
    assert_that(&rt, !sink.may_wait());
    let sink = sink.gathering(true);
    assert_that(&rt, sink.may_wait());
    assert_that(&rt, !sink.gathering(false).may_wait());
}
