// The line of progress: what it says, when it comes, and that it goes away.

ghost use Rattle.std.specs.Prelude.{◌≡◌, ◌^◌, ◌<◌};

use super::asserts::assert_same;
use super::files::FOUR;
use super::steps::{Asked, Step, shelf_of};
use b3_check::{NoContent, Shelf, Sink};
use b3_files::{
    ClearingSink, CountingShelf, FileShelf, MemoryDisk, MemoryFile, NamedFile, OutputSink,
};
use b3_progress::{Counts, Progress, progress_line};
use std::alloc::Global;
use std::cell::{Cell, RefCell};
use std::io::{self, ErrorKind, Write};
use std::process::Abort;
use std::rt::Clock;
use std::time::Duration;

const GIB: u64 = 1 << 30;

// Half of a file is read, in a second.
const HALF: Counts = Counts {
    bytes: GIB / 2,
    known_bytes: GIB,
    names: 3,
    known_names: 4,
    all_names: 4,
    millis: 1_000,
};

const NOTHING: Counts = Counts {
    bytes: 0,
    known_bytes: 0,
    names: 0,
    known_names: 0,
    all_names: 1,
    millis: 0,
};

const MOST: Counts = Counts {
    bytes: u64::MAX / 100,
    known_bytes: u64::MAX,
    names: u64::MAX,
    known_names: u64::MAX,
    all_names: u64::MAX,
    millis: u64::MAX,
};

// A line for each of these counts and names.
const ROWS: [(Counts, &str, &str); 8] = [
    (NOTHING, "a", "0 B, 0 B/s, 0 of 1: a"),
    (
        HALF,
        "a",
        "512.0 MiB of 1.0 GiB, 50%, 512.0 MiB/s, 0:01 left, 3 of 4: a",
    ),
    // The lengths of three names are not known.
    (
        Counts {
            known_names: 1,
            ..HALF
        },
        "a",
        "512.0 MiB of ~4.0 GiB, 12%, 512.0 MiB/s, 0:07 left, 3 of 4: a",
    ),
    // A pipe tells no length.
    (
        Counts {
            known_bytes: 0,
            ..HALF
        },
        "a",
        "512.0 MiB, 512.0 MiB/s, 3 of 4: a",
    ),
    (
        Counts {
            known_bytes: 10_000 * GIB + 1_023,
            ..HALF
        },
        "a",
        "512.0 MiB of 9.7 TiB, 0%, 512.0 MiB/s, 5:33:19 left, 3 of 4: a",
    ),
    // The end of a name, what moves the cursor, and characters of two columns, of which none is cut.
    (
        HALF,
        "folder/name of a file\n\u{1b}",
        "512.0 MiB of 1.0 GiB, 50%, 512.0 MiB/s, 0:01 left, 3 of 4: der/name of a file??",
    ),
    (
        HALF,
        "一二三四五六七八九十一二三四.",
        "512.0 MiB of 1.0 GiB, 50%, 512.0 MiB/s, 0:01 left, 3 of 4: 六七八九十一二三四.",
    ),
    // The greatest numbers: the line is cut.
    (
        MOST,
        "a",
        "163.8 PiB of 15.9 EiB, 0%, 1 B/s, 5072854620270126:41:39 left, 1844674407370955",
    ),
];

fn assert_line(rt: &(impl AllocGlobal + Abort), counts: &Counts, name: &str, text: &str) {
    let line = progress_line(rt.alloc(), counts, name).expect(rt, "memory");
    assert_same(rt, line.as_str(), text);
}

#[test]
fn lines(rt: HostRuntime) {
    for (counts, name, text) in ROWS {
        assert_line(&rt, &counts, name, text);
    }
}

// A clock that goes on by 150 milliseconds each time that it is read.
#[derive(Drop)]
struct StepClock {
    millis: Cell<u64>,
}

impl Clock for StepClock {
    fn monotonic(&self) -> io::Result<Duration> {
        let millis = self.millis.get();
        self.millis.set(millis.wrapping_add(150));
        Ok(Duration::from_millis(millis))
    }

    fn since_1970(&self) -> io::Result<Duration> {
        self.monotonic()
    }
}

// One of several writers to the same screen.
#[derive(Drop)]
struct Screen<'a> {
    written: &'a RefCell<String>,
}

impl Write for Screen<'_> {
    fn write(&mut self, buf: &[u8]) -> io::Result<usize> {
        let (Ok(mut written), Ok(text)) = (self.written.try_borrow_mut(), str::from_utf8(buf))
        else {
            return Err(io::Error::from(ErrorKind::Other));
        };
        written.push_str(text)?;
        Ok(buf.len())
    }

    fn flush(&mut self) -> io::Result<()> {
        Ok(())
    }
}

// Just this was written.
fn assert_written(rt: &impl Abort, written: &RefCell<String>, due: &str) {
    let Ok(seen) = written.try_borrow() else {
        assert!(rt; false, "it is still written");
        return;
    };
    assert_same(rt, seen.as_str(), due);
}

// Makes these calls of a shelf that counts what this one gives.
fn assert_counted<S: Shelf + Drop, C: Clock, W: Write>(
    rt: &impl Abort,
    alloc: Global,
    files: S,
    progress: &Progress<C, W>,
    steps: &[Step<'_>],
)
    requires { S.failures files ≡ 0 }
{
    Asked::new(CountingShelf::new(alloc, files, progress)).assert(rt, steps);
}

// Counts a file of five bytes, and writes two lines meanwhile. Nothing is shown before it is asked for, and it is too soon
// for another line at the second read.
fn count_and_say<S: Shelf, K: Sink, C: Clock, W: Write>(
    rt: &impl Abort,
    shelf: &mut Asked<S>,
    sink: &mut K,
    progress: &Progress<C, W>,
)
    requires { K.failures sink.old < 2 ^ 63 }
{
    shelf.assert(rt, &[Step::Begin("a", Ok(())), Step::Read(2, Ok(b"by"))]);
    progress.show_if(true);
    shelf.assert(
        rt,
        &[
            Step::Expect(2),
            Step::Begin("a", Ok(())),
            Step::Read(2, Ok(b"by")),
            Step::Read(2, Ok(b"te")),
        ],
    );
    assert_same(rt, sink.write(b"said\n"), Ok(5));
    assert_same(rt, sink.write(b"more\n"), Ok(5));
    shelf.assert(rt, &[Step::Read(2, Ok(b"s"))]);
}

// One line in a fifth of a second, which goes away before anything else is written.
#[test]
fn a_line_comes_and_goes(rt: HostRuntime) {
    let alloc = rt.alloc();
    let written = RefCell::new(String::new(alloc));
    let screen = Screen { written: &written };
    let clock = StepClock {
        millis: Cell::new(0),
    };
    let progress = Progress::new(alloc, clock, screen, true);
    let files = shelf_of(&rt, alloc, "a", b"bytes");
    let mut shelf = Asked::new(CountingShelf::new(alloc, files, &progress));
    let output = OutputSink::new(Screen { written: &written });
    let mut sink = ClearingSink::new(&rt, output, true, &progress);
    count_and_say(&rt, &mut shelf, &mut sink, &progress);
    progress.clear(&rt);
    let due = "\r2 B of ~10 B, 20%, 6 B/s, 0:01 left, 0 of 2: a\x1b[K\
               \r\x1b[Ksaid\nmore\n\
               \r5 B of ~10 B, 50%, 6 B/s, 0:00 left, 0 of 2: a\x1b[K\
               \r\x1b[K";
    assert_written(&rt, &written, due);
}

const STEPS: [Step<'static>; 11] = [
    Step::Expect(4),
    Step::HashWhole("a", 10, Some(FOUR)),
    Step::HashWhole("missing", 10, None),
    Step::Lacks("missing", Some(NoContent::Missing)),
    Step::HashWhole("b", 10, None),
    Step::Lacks("b", None),
    Step::HashWhole("c", 2, None),
    Step::Lacks("c", None),
    Step::Begin("b", Ok(())),
    Step::ReadAt(6, Some(b" bytes")),
    Step::ReadAt(8, Some(b"ytes")),
];

// A name that was read whole before its turn is done, and so is one that is missing; those that are too long for that
// wait, and tell their lengths.
#[test]
fn names_before_their_turn(rt: HostRuntime) {
    let alloc = rt.alloc();
    let written = RefCell::new(String::new(alloc));
    let screen = Screen { written: &written };
    let clock = StepClock {
        millis: Cell::new(0),
    };
    let progress = Progress::new(alloc, clock, screen, true);
    progress.show_if(true);
    let files = FileShelf::new(MemoryDisk::new(&FILES), MemoryFile::new(b""));
    assert_counted(&rt, alloc, files, &progress, &STEPS);
    let due = "\r4 B of ~16 B, 25%, 13 B/s, 0:00 left, 1 of 4: a\x1b[K\
               \r14 B of 19 B, 73%, 18 B/s, 0:00 left, 2 of 4: b\x1b[K";
    assert_written(&rt, &written, due);
}

const FILES: [NamedFile<'static>; 3] = [
    NamedFile {
        name: "a",
        content: b"four",
    },
    NamedFile {
        name: "b",
        content: b"twelve bytes",
    },
    NamedFile {
        name: "c",
        content: b"end",
    },
];
