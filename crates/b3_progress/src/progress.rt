//! How far a run is, shown on a terminal.

use crate::progress_text::{Counts, progress_line};
use std::alloc::Global;
use std::io::Write;
use std::rt::Clock;
use std::sync::atomic::{AtomicBool, AtomicU64, Ordering};
use std::sync::{Mutex, MutexGuard, Wait};
use std::time::Instant;

/// How many milliseconds there are at least between two lines.
const INTERVAL: u64 = 200;

/// Erases the line of a terminal on which the cursor is.
const ERASE_LINE: &str = "\r\x1b[K";

/// A terminal, on which one line may stand that is to go away.
#[derive(Drop)]
pub struct Terminal<W> {
    writer: W,
    has_line: bool,
    // whether what an output wrote last is the beginning of a line
    is_in_output: bool,
}

impl<W: Write> Terminal<W> {
    // Writes the line in the place of the one that stands there.
    fn show(&mut self, text: &str) {
        self.has_line = true;
        self.write(text);
    }

    fn clear(&mut self) {
        if self.has_line {
            self.has_line = false;
            self.write(ERASE_LINE);
        }
    }

    /// An output wrote these bytes. A line stands only before or behind whole lines of an output.
    pub fn note_output(&mut self, bytes: &[u8]) {
        if let Some(last) = bytes.last() {
            self.is_in_output = *last != b'\n';
        }
    }

    // What the terminal does not take is no fault of the run.
    fn write(&mut self, text: &str) {
        let _ = self.writer.write_all(text.as_bytes());
    }
}

/// What was done of a run, and a terminal on which a line says so.
///
/// Threads count beside one another, and none waits: where it is time for a line and no other thread writes, the thread
/// that counts writes it. An output waits for a thread that writes a line, and none writes one meanwhile.
#[derive(Drop)]
pub struct Progress<C, W> {
    alloc: Global,
    clock: C,
    start: Option<Instant>,
    is_terminal: bool,
    is_shown: AtomicBool,
    // when the next line is due, and when these counts began, in milliseconds from the start on
    due: AtomicU64,
    since: AtomicU64,
    all_names: AtomicU64,
    // the names that were begun in their turn, and the bytes that were read of them
    begun_names: AtomicU64,
    begun_bytes: AtomicU64,
    // those that were done before their turn
    whole_names: AtomicU64,
    whole_bytes: AtomicU64,
    // those that wait for their turn, and the lengths that they tell
    waiting_names: AtomicU64,
    waiting_bytes: AtomicU64,
    terminal: Mutex<Terminal<W>>,
}

impl<C: Clock, W: Write> Progress<C, W> {
    /// Nothing is done, and nothing is shown. The writer is one of a terminal, or is not.
    pub fn new(alloc: Global, clock: C, writer: W, is_terminal: bool) -> Progress<C, W> {
        let start = Instant::now(&clock).ok();
        Progress {
            alloc,
            clock,
            start,
            is_terminal,
            is_shown: AtomicBool::new(false),
            due: AtomicU64::new(INTERVAL),
            since: AtomicU64::new(0),
            all_names: AtomicU64::new(0),
            begun_names: AtomicU64::new(0),
            begun_bytes: AtomicU64::new(0),
            whole_names: AtomicU64::new(0),
            whole_bytes: AtomicU64::new(0),
            waiting_names: AtomicU64::new(0),
            waiting_bytes: AtomicU64::new(0),
            terminal: Mutex::new(Terminal {
                writer,
                has_line: false,
                is_in_output: false,
            }),
        }
    }

    /// Lines are shown from now on, if they are wanted and there is a terminal.
    pub fn show_if(&self, is_wanted: bool) {
        self.is_shown
            .store(is_wanted && self.is_terminal, Ordering::SeqCst);
    }

    /// Whether lines are shown, so that there is something to count for.
    pub fn is_shown(&self) -> bool {
        self.is_shown.load(Ordering::SeqCst)
    }

    /// Counts anew: so many names are to be done.
    pub fn expect_names(&self, count: u64) {
        self.since
            .store(self.millis().unwrap_or(0), Ordering::SeqCst);
        self.all_names.store(count, Ordering::SeqCst);
        self.begun_names.store(0, Ordering::SeqCst);
        self.begun_bytes.store(0, Ordering::SeqCst);
        self.whole_names.store(0, Ordering::SeqCst);
        self.whole_bytes.store(0, Ordering::SeqCst);
        self.waiting_names.store(0, Ordering::SeqCst);
        self.waiting_bytes.store(0, Ordering::SeqCst);
    }

    /// Counts a name that is begun in its turn, and answers how many bytes were read of those before it.
    pub fn begin_name(&self) -> u64 {
        self.begun_names.fetch_add(1, Ordering::SeqCst);
        self.begun_bytes()
    }

    /// How many bytes were read of names in their turn.
    pub fn begun_bytes(&self) -> u64 {
        self.begun_bytes.load(Ordering::SeqCst)
    }

    /// Counts bytes of the name that was begun last.
    pub fn add_bytes(&self, count: u64) {
        self.begun_bytes.fetch_add(count, Ordering::SeqCst);
    }

    /// Counts a name that is done before its turn, and answers how many there were before it.
    pub fn add_whole(&self, len: u64) -> u64 {
        self.whole_bytes.fetch_add(len, Ordering::SeqCst);
        self.whole_names.fetch_add(1, Ordering::SeqCst)
    }

    /// Counts a name that waits for its turn, and the length that it tells.
    pub fn add_waiting(&self, len: u64) {
        self.waiting_names.fetch_add(1, Ordering::SeqCst);
        self.waiting_bytes.fetch_add(len, Ordering::SeqCst);
    }

    /// Whether names wait for their turn.
    pub fn has_waiting(&self) -> bool {
        self.waiting_names.load(Ordering::SeqCst) > 0
    }

    /// The turn of the first name that waits has come, which tells this length by now. Other names may come to wait
    /// meanwhile.
    pub fn end_wait(&self, len: u64) {
        subtract(&self.waiting_names, 1);
        subtract(&self.waiting_bytes, len);
    }

    /// Whether it is time for a line.
    pub fn is_due(&self) -> bool {
        match self.millis() {
            Some(now) => self.due.load(Ordering::SeqCst) <= now,
            None => false,
        }
    }

    /// Shows a line with this name, if it is time for one, no other thread writes, and no line of an output is begun. So
    /// many bytes are left of the name in hand; none where it is done.
    pub fn show(&self, name: &str, left: Option<u64>) {
        let Some(now) = self.millis() else {
            return;
        };
        let Some(mut terminal) = self.terminal.try_lock() else {
            return;
        };
        // Another thread may have written one meanwhile.
        if terminal.is_in_output || now < self.due.load(Ordering::SeqCst) {
            return;
        }
        self.due
            .store(now.saturating_add(INTERVAL), Ordering::SeqCst);
        if let Ok(line) = progress_line(self.alloc, &self.counts(now, left), name) {
            if let Ok(text) = format!(in self.alloc; "\r{line}\x1b[K") {
                terminal.show(text.as_str());
            }
        }
    }

    /// Takes the line away, if one stands there.
    pub fn clear<R: Wait>(&self, rt: &R) {
        let _cleared = self.cleared(rt);
    }

    /// The terminal without a line, for an output to write to it: none is shown until this is dropped. Where no lines are
    /// shown it is none, and costs no lock.
    pub fn cleared<R: Wait>(&self, rt: &R) -> Option<MutexGuard<'_, Terminal<W>>> {
        if !self.is_shown() {
            return None;
        }
        let mut terminal = self.terminal.lock(rt);
        terminal.clear();
        Some(terminal)
    }

    fn counts(&self, now: u64, left: Option<u64>) -> Counts {
        let begun = self.begun_names.load(Ordering::SeqCst);
        let whole = self.whole_names.load(Ordering::SeqCst);
        let bytes = self
            .begun_bytes()
            .saturating_add(self.whole_bytes.load(Ordering::SeqCst));
        Counts {
            bytes,
            known_bytes: bytes
                .saturating_add(left.unwrap_or(0))
                .saturating_add(self.waiting_bytes.load(Ordering::SeqCst)),
            names: begun
                .saturating_sub(u64::from(left.is_some()))
                .saturating_add(whole),
            known_names: begun
                .saturating_add(whole)
                .saturating_add(self.waiting_names.load(Ordering::SeqCst)),
            all_names: self.all_names.load(Ordering::SeqCst),
            millis: now.saturating_sub(self.since.load(Ordering::SeqCst)),
        }
    }

    // How many milliseconds have gone since the start, if the clock can be read.
    fn millis(&self) -> Option<u64> {
        let elapsed = self.start?.elapsed(&self.clock).ok()?;
        let millis = elapsed.as_secs().saturating_mul(1_000);
        Some(millis.saturating_add(u64::from(elapsed.subsec_millis())))
    }
}

// Takes so much off a count, down to 0, in one step.
fn subtract(count: &AtomicU64, less: u64) {
    let _ = count.fetch_update(Ordering::SeqCst, Ordering::SeqCst, |now| {
        Some(now.saturating_sub(less))
    });
}
