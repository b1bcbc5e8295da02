// A terminal to which an output writes while a shelf counts: no line of progress comes into what is written.

ghost use Rattle.std.specs.Prelude.{◌≡◌, ◌^◌, ◌<◌};

use super::asserts::{assert_same, assert_that};
use super::steps::shelf_of;
use b3_check::{Shelf, Sink, write_all};
use b3_files::{ClearingSink, CountingShelf, OutputSink};
use b3_progress::Progress;
use std::alloc::Global;
use std::io::{self, ErrorKind, Write};
use std::process::Abort;
use std::rt::Clock;
use std::sync::atomic::{AtomicBool, AtomicU64, Ordering};
use std::sync::{Mutex, MutexGuard, Wait};
use std::thread::{self, Threads};
use std::time::Duration;

// How the record says that a line of progress was shown, and that it was erased.
const SHOWN: char = '<';

const ERASED: char = '>';

// A clock that goes on by a second each time that it is read: a line is due whenever a byte is counted.
#[derive(Drop)]
struct FastClock {
    seconds: AtomicU64,
}

impl FastClock {
    fn new() -> FastClock {
        FastClock {
            seconds: AtomicU64::new(0),
        }
    }
}

impl Clock for FastClock {
    fn monotonic(&self) -> io::Result<Duration> {
        Ok(Duration::from_secs(self.seconds.fetch_add(1, Ordering::SeqCst)))
    }

    fn since_1970(&self) -> io::Result<Duration> {
        self.monotonic()
    }
}

// Writes to the record. Where another writes at the same moment, it fails.
fn record(record: &Mutex<String>, character: char) -> io::Result<()> {
    let Some(mut text) = record.try_lock() else {
        return Err(io::Error::from(ErrorKind::Other));
    };
    text.push(character)?;
    Ok(())
}

// The writer of the line of progress.
#[derive(Drop)]
struct Line<'a> {
    record: &'a Mutex<String>,
}

impl Write for Line<'_> {
    fn write(&mut self, buf: &[u8]) -> io::Result<usize> {
        let is_erased = buf == b"\r\x1b[K".as_slice();
        record(self.record, if is_erased { ERASED } else { SHOWN })?;
        Ok(buf.len())
    }

    fn flush(&mut self) -> io::Result<()> {
        Ok(())
    }
}

// Counts a byte, after which a line is shown, unless something is in its way.
fn count_byte<S: Shelf>(shelf: &S) {
    let _ = shelf.read_at(0, &mut [0]);
}

// A writer that takes three bytes at most, one after the other, and has a byte counted before and after each.
#[derive(Drop)]
struct Slow<'r, 's, S> {
    record: &'r Mutex<String>,
    shelf: &'s S,
}

impl<S: Shelf> Write for Slow<'_, '_, S> {
    fn write(&mut self, buf: &[u8]) -> io::Result<usize> {
        let front = &buf[..buf.len().min(3)];
        for byte in front {
            count_byte(self.shelf);
            record(self.record, char::from(*byte))?;
            count_byte(self.shelf);
        }
        Ok(front.len())
    }

    fn flush(&mut self) -> io::Result<()> {
        Ok(())
    }
}

// An output to which each write is whole.
#[derive(Drop)]
struct Whole<K: Sink> {
    sink: K,
    ghost few: { K.failures sink < 2 ^ 63 },
}

impl<K: Sink> Whole<K> {
    fn write(&mut self, rt: &impl Abort, text: &str) {
        assert!(rt; write_all(&mut self.sink, text.as_bytes()).is_ok());
    }
}

// Two lines, the first by two calls, and bytes that are counted before, between and after them.
fn write_two_lines<S: Shelf, K: Sink>(rt: &impl Abort, shelf: &S, sink: &mut K)
    requires { K.failures sink.old < 2 ^ 63 }
{
    count_byte(shelf);
    assert_same(rt, sink.write(b"line\n"), Ok(3));
    // Half of a line stands there.
    count_byte(shelf);
    assert_same(rt, sink.write(b"e\n"), Ok(2));
    count_byte(shelf);
    count_byte(shelf);
    assert_same(rt, sink.write(b"b\n"), Ok(2));
    count_byte(shelf);
}

// How many lines are written.
const LINES: usize = 300;

const LINE: &str = "line";

// Counts until it is told that it is enough.
fn count_until<S: Shelf>(shelf: &S, is_enough: &AtomicBool) {
    for _ in 0..1_000_000u64 {
        if is_enough.load(Ordering::SeqCst) {
            return;
        }
        count_byte(shelf);
    }
}

fn write_lines<K: Sink>(rt: &impl Abort, output: &mut Whole<K>, is_enough: &AtomicBool) {
    for _ in 1..LINES {
        output.write(rt, "line\n");
    }
    is_enough.store(true, Ordering::SeqCst);
}

// Writes lines while another thread counts.
fn write_beside<R: Threads + Abort + Sync, S: Shelf + Sync, K: Sink>(
    rt: &R,
    shelf: &S,
    output: &mut Whole<K>,
) {
    let is_enough = AtomicBool::new(false);
    thread::join(
        rt,
        || count_until(shelf, &is_enough),
        || write_lines(rt, output, &is_enough),
    );
}

// Writes to an output on the terminal of the line of progress, beside a thread that counts or without one.
fn write_on_terminal<R: Threads + Wait + Abort + Sync, S: Shelf + Sync, C: Clock, W: Write>(
    rt: &R,
    record: &Mutex<String>,
    shelf: &S,
    progress: &Progress<C, W>,
    is_beside: bool,
) {
    let output = OutputSink::new(Slow { record, shelf });
    let mut sink = ClearingSink::new(rt, output, true, progress);
    if !is_beside {
        write_two_lines(rt, shelf, &mut sink);
        return;
    }
    let mut output = Whole { sink };
    write_beside(rt, shelf, &mut output);
    output.write(rt, "line\n");
}

// Counts a file of four bytes, and writes to an output on the terminal of its line of progress.
fn count_and_write<R: Threads + Wait + Abort + Sync>(
    rt: &R,
    alloc: Global,
    record: &Mutex<String>,
    is_beside: bool,
) {
    let files = shelf_of(rt, alloc, "a", b"four");
    let progress = Progress::new(alloc, FastClock::new(), Line { record }, true);
    progress.show_if(true);
    let mut shelf = CountingShelf::new(alloc, files, &progress);
    assert_same(rt, shelf.begin("a"), Ok(()));
    write_on_terminal(rt, record, &shelf, &progress, is_beside);
    if !is_beside {
        progress.clear(rt);
        progress.clear(rt);
    }
}

// What is written.
fn seen<'a>(rt: &impl Abort, record: &'a Mutex<String>) -> MutexGuard<'a, String> {
    record.try_lock().expect(rt, "it is still written")
}

#[test]
fn a_line_comes_between_those_of_an_output(rt: HostRuntime) {
    let written = Mutex::new(String::new(rt.alloc()));
    count_and_write(&rt, rt.alloc(), &written, false);
    assert_same(&rt, seen(&rt, &written).as_str(), "<>line\n<<>b\n<>");
}

// A line of the output stands whole, and those of progress before it were erased.
fn assert_whole_line(rt: &impl Abort, seen: &str) {
    let (shown, line) = seen.split_once(ERASED).unwrap_or(("", seen));
    assert_same(rt, line, LINE);
    assert_that(rt, shown.chars().all(|character| character == SHOWN));
}

fn assert_whole(rt: &impl Abort, text: &str) {
    assert_same(rt, text.lines().count(), LINES);
    for line in text.lines() {
        assert_whole_line(rt, line);
    }
}

#[test]
fn a_thread_counts_while_an_output_writes(rt: HostRuntime) {
    let written = Mutex::new(String::new(rt.alloc()));
    count_and_write(&rt, rt.alloc(), &written, true);
    assert_whole(&rt, seen(&rt, &written).as_str());
}
