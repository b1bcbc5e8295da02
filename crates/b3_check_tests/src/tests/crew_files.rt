// Files that take turns to be slow, to fail and to need their turn, and a log of what is said of them.

ghost use Rattle.std.specs.Prelude.{◌≡◌, [], None, false};

use super::asserts::{assert_same_for, assert_that_for};
use crate::tests::owned::append;
use crate::tests::recording::give;
use crate::tests::rendezvous::Rendezvous;
use b3_check::{CannotRead, NoContent, Shelf, Sink, SinkFailed};
use b3_hash::Hasher;
use std::alloc::Global;
use std::cell::{Cell, RefCell};
use std::process::Abort;
use std::sync::atomic::{AtomicBool, AtomicU64, Ordering};
use std::thread;

/// What threads see of a run: how many bytes were written, and how many names were asked for as a whole.
#[derive(Drop)]
pub struct Seen {
    written: AtomicU64,
    looked: AtomicU64,
}

impl Seen {
    pub fn new() -> Seen {
        Seen {
            written: AtomicU64::new(0),
            looked: AtomicU64::new(0),
        }
    }

    pub fn written(&self) -> u64 {
        self.written.load(Ordering::SeqCst)
    }

    pub fn looked(&self) -> u64 {
        self.looked.load(Ordering::SeqCst)
    }
}

// The content of a long file.
fn long() -> &'static [u8] {
    &[0; 65_536]
}

/// The letter that a name begins with.
pub fn letter_of(name: &str) -> u8 {
    name.as_bytes().first().copied().unwrap_or(0)
}

/// The number in a name.
fn place_of(name: &str) -> usize {
    let mut place = 0usize;
    for byte in name.as_bytes() {
        if byte.is_ascii_digit() {
            place = place
                .saturating_mul(10)
                .saturating_add(byte.saturating_sub(b'0') as usize);
        }
    }
    place
}

/// Where two threads meet, each at the name of one of two places, the first of them the lower one. The other stays until
/// a name behind it is asked for. Where there are no two threads, or one waits in vain, nothing is noted.
#[derive(Drop)]
pub struct Gates {
    places: [usize; 2],
    both: Rendezvous,
    is_behind: AtomicBool,
    // how many bytes were written when both had come, and when a name behind them was asked for
    met: AtomicU64,
    left: AtomicU64,
    is_noted: AtomicBool,
}

impl Gates {
    /// No thread is held.
    pub fn open() -> Gates {
        Gates::new(usize::MAX, usize::MAX)
    }

    pub fn new(first: usize, second: usize) -> Gates {
        Gates {
            places: [first, second],
            both: Rendezvous::new(2),
            is_behind: AtomicBool::new(false),
            met: AtomicU64::new(0),
            left: AtomicU64::new(0),
            is_noted: AtomicBool::new(false),
        }
    }

    fn pass(&self, place: usize, seen: &Seen) {
        if place == self.places[0] {
            self.both.arrive(0);
            self.met.store(seen.written(), Ordering::SeqCst);
        }
        if place == self.places[1] {
            self.both.arrive(1);
            let is_in_time = self.both.is_complete() && self.has_one_behind();
            self.left.store(seen.written(), Ordering::SeqCst);
            self.is_noted.store(is_in_time, Ordering::SeqCst);
        }
        if place > self.places[1] {
            self.is_behind.store(true, Ordering::SeqCst);
        }
    }

    // Waits for a name behind both, for some time.
    fn has_one_behind(&self) -> bool {
        for _ in 0..100_000u64 {
            if self.is_behind.load(Ordering::SeqCst) {
                return true;
            }
            thread::yield_now();
        }
        false
    }

    /// What comes before the first of the names was written when both were held. Then all before the second was, or the
    /// thread that writes was held there.
    pub fn assert(&self, rt: &impl Abort, due: &[u64]) {
        if !self.is_noted.load(Ordering::SeqCst) {
            return;
        }
        let met = self.met.load(Ordering::SeqCst);
        let left = self.left.load(Ordering::SeqCst);
        let first = due.get(self.places[0]).copied().unwrap_or(0);
        let second = due.get(self.places[1]).copied().unwrap_or(0);
        assert_that_for(rt, (met, first), met <= first);
        assert_that_for(
            rt,
            (left, first, second),
            left == second || left == first && met == first,
        );
    }
}

/// A name is a letter and its place among the names. The letter says what there is of it: `q` is empty, and soon hashed;
/// `s` is empty, and hashed after some turns; `l` has 65,536 zero bytes; `m` is missing and `d` is denied, which is soon known. The others need
/// their turn: `t` has a byte; `c` has one too, and two when it is asked for as a whole; the read of `f` fails; `v`
/// vanishes; `e` has no end.
#[derive(Drop)]
pub struct CrewFiles<'a> {
    seen: &'a Seen,
    // how many bytes are said of the names before each
    due: &'a [u64],
    gates: &'a Gates,
    // how often each name was asked for as a whole, and begun
    looks: Vec<AtomicU64>,
    begins: Vec<u64>,
    // something was said too early, or too late
    is_misplaced: AtomicBool,
    letter: u8,
    rest: &'static [u8],
    is_begun: bool,
    failures: u64,
}

impl<'a> CrewFiles<'a> {
    pub fn new(
        rt: &impl Abort,
        alloc: Global,
        seen: &'a Seen,
        due: &'a [u64],
        gates: &'a Gates,
    ) -> CrewFiles<'a>
        ensures { ⟦<CrewFiles<'a> as Shelf>⟧.failures result ≡ 0 }
    {
        let mut looks = Vec::new(alloc);
        let mut begins = Vec::new(alloc);
        for _ in due {
            append(rt, &mut looks, AtomicU64::new(0));
            append(rt, &mut begins, 0);
        }
        CrewFiles {
            seen,
            due,
            gates,
            looks,
            begins,
            is_misplaced: AtomicBool::new(false),
            letter: 0,
            rest: &[],
            is_begun: false,
            failures: 0,
        }
    }

    fn due_before(&self, place: usize) -> u64 {
        self.due.get(place).copied().unwrap_or(u64::MAX)
    }

    // How often the name at this place was asked for as a whole, and begun.
    fn asked(&self, place: usize) -> (u64, u64) {
        let looks = match self.looks.get(place) {
            Some(looks) => looks.load(Ordering::SeqCst),
            None => 0,
        };
        (looks, self.begins.get(place).copied().unwrap_or(0))
    }

    /// Nothing was said before its time, and nothing came late. So many names failed. Each was asked for once, as a whole
    /// or in its turn, or both where it needs its turn.
    pub fn assert_asked(
        &self,
        rt: &impl Abort,
        names: &[String],
        failures: u64,
        workers: u32,
        row: &str,
    ) {
        assert_that_for(
            rt,
            (row, workers),
            !self.is_misplaced.load(Ordering::SeqCst),
        );
        assert_same_for(rt, (row, workers), self.failures, failures);
        for (place, name) in names.iter().enumerate() {
            let (looks, begins) = self.asked(place);
            let is_right = match letter_of(name.as_str()) {
                b'b' => looks == 0 && begins == 0,
                b'q' | b's' | b'm' | b'd' => looks.saturating_add(begins) == 1,
                _ => looks <= 1 && begins == 1,
            };
            assert_that_for(rt, (row, workers, name), is_right);
        }
    }
}

impl Shelf for CrewFiles<'_> {
    ghost failures = { λ shelf. shelf.failures };

    ghost told = { λ _. None };

    ghost is_sure = { λ _. false };

    ghost is_begun = { λ shelf. shelf.is_begun };

    ghost left = { λ _. [] };

    fn begin(&mut self, name: &str) -> Result<(), NoContent> {
        self.is_begun = false;
        let place = place_of(name);
        if let Some(begins) = self.begins.get_mut(place) {
            *begins = begins.saturating_add(1);
        }
        if self.seen.written() != self.due_before(place) {
            self.is_misplaced.store(true, Ordering::SeqCst);
        }
        self.letter = letter_of(name);
        let why = match self.letter {
            b'm' | b'v' => NoContent::Missing,
            b'd' => NoContent::CannotRead,
            _ => {
                self.rest = if matches!(self.letter, b't' | b'c') {
                    b"\0"
                } else {
                    b""
                };
                self.is_begun = true;
                return Ok(());
            }
        };
        self.failures += 1;
        Err(why)
    }

    fn read(&mut self, buffer: &mut [u8]) -> Result<usize, CannotRead> {
        if !self.is_begun {
            return Ok(0);
        }
        if self.letter == b'f' {
            self.is_begun = false;
            self.failures += 1;
            return Err(CannotRead);
        }
        if self.letter == b'e' {
            return Ok(give(b"x", 1, buffer));
        }
        let count = give(self.rest, 1, buffer);
        self.rest = self.rest.get(count..).unwrap_or(b"");
        Ok(count)
    }

    fn hash_whole(
        &self,
        name: &str,
        _max_len: u64,
        _buffer: &mut [u8],
        hasher: &mut Hasher,
    ) -> bool {
        let place = place_of(name);
        self.seen.looked.fetch_add(1, Ordering::SeqCst);
        if let Some(looks) = self.looks.get(place) {
            looks.fetch_add(1, Ordering::SeqCst);
        }
        self.gates.pass(place, self.seen);
        let letter = letter_of(name);
        let turns = if letter == b's' { 10 + place % 40 } else { 0 };
        for _ in 0..turns {
            thread::yield_now();
        }
        match letter {
            b'c' => {
                let _ = hasher.update(b"\0\0");
            }
            b'l' => {
                let _ = hasher.update(long());
            }
            _ => (),
        }
        if self.seen.written() > self.due_before(place) {
            self.is_misplaced.store(true, Ordering::SeqCst);
        }
        matches!(letter, b'q' | b's' | b'l')
    }

    fn lacks(&self, name: &str) -> Option<NoContent> {
        match letter_of(name) {
            b'm' => Some(NoContent::Missing),
            b'd' => Some(NoContent::CannotRead),
            _ => None,
        }
    }

    fn count_failures(&mut self, count: u64) {
        self.failures += count;
    }
}

/// What both outputs were given.
#[derive(Drop)]
pub struct Log<'a> {
    seen: &'a Seen,
    text: RefCell<Vec<u8>>,
    writes: Cell<u64>,
    longest: Cell<usize>,
    // so many names were asked for while a write lasted
    is_met: Cell<bool>,
    /// Whether lines may wait for others.
    pub may_wait: bool,
    /// How many writes come before one that fails.
    pub writes_before: u64,
    /// The write of this number lasts until so many names were asked for as a whole, or none was within so many turns.
    pub held_write: u64,
    pub wanted: u64,
    pub patience: u64,
}

impl<'a> Log<'a> {
    pub fn new(alloc: Global, seen: &'a Seen, may_wait: bool) -> Log<'a> {
        Log {
            seen,
            text: RefCell::new(Vec::new(alloc)),
            writes: Cell::new(0),
            longest: Cell::new(0),
            is_met: Cell::new(false),
            may_wait,
            writes_before: u64::MAX,
            held_write: 0,
            wanted: 0,
            patience: 100_000,
        }
    }

    pub fn seen(&self) -> &'a Seen {
        self.seen
    }

    pub fn writes(&self) -> u64 {
        self.writes.get()
    }

    /// There were so many writes, of which the longest has so many bytes: at least and at most. The least length and the
    /// most writes are of a run in which names were asked for while a write lasted.
    pub fn assert_writes(&self, rt: &impl Abort, writes: [u64; 2], longest: [usize; 2]) {
        let count = self.writes.get();
        let len = self.longest.get();
        assert_that_for(rt, (count, len), writes[0] <= count && len <= longest[1]);
        assert_that_for(
            rt,
            (count, len),
            !self.is_met.get() || count <= writes[1] && longest[0] <= len,
        );
    }

    /// Whether what was written begins these bytes.
    pub fn is_beginning_of(&self, text: &[u8]) -> bool {
        match self.text.try_borrow() {
            Ok(written) => text.starts_with(written.as_slice()),
            Err(_) => false,
        }
    }

    /// Whether just these bytes were written.
    pub fn has(&self, text: &[u8]) -> bool {
        match self.text.try_borrow() {
            Ok(written) => written.as_slice() == text,
            Err(_) => false,
        }
    }

    fn hold(&self) {
        let mut looked = 0;
        let mut turns = 0u64;
        for _ in 0..1_000_000u64 {
            let now = self.seen.looked();
            turns = if now == looked {
                turns.saturating_add(1)
            } else {
                0
            };
            looked = now;
            if looked >= self.wanted || turns > self.patience {
                break;
            }
            thread::yield_now();
        }
        self.is_met.set(looked >= self.wanted);
    }

    // Adds these bytes, if this is not the write that fails.
    fn add(&self, bytes: &[u8]) -> bool {
        let writes = self.writes.get();
        if writes == self.held_write {
            self.hold();
        }
        self.writes.set(writes.saturating_add(1));
        self.longest.set(self.longest.get().max(bytes.len()));
        let Ok(mut text) = self.text.try_borrow_mut() else {
            return false;
        };
        if writes == self.writes_before || text.extend_from_slice(bytes).is_err() {
            return false;
        }
        self.seen
            .written
            .fetch_add(bytes.len() as u64, Ordering::SeqCst);
        true
    }
}

/// One of the outputs.
#[derive(Drop)]
pub struct LogSink<'a> {
    log: &'a Log<'a>,
    failures: u64,
}

impl<'a> LogSink<'a> {
    pub fn new(log: &'a Log<'a>) -> LogSink<'a>
        ensures { ⟦<LogSink<'a> as Sink>⟧.failures result ≡ 0 }
    {
        LogSink { log, failures: 0 }
    }
}

impl Sink for LogSink<'_> {
    ghost failures = { λ sink. sink.failures };

    ghost held = { λ _. None };

    fn write(&mut self, bytes: &[u8]) -> Result<usize, SinkFailed> {
        if !self.log.add(bytes) {
            self.failures += 1;
            return Err(SinkFailed);
        }
        Ok(bytes.len())
    }

    fn may_wait(&self) -> bool {
        self.log.may_wait
    }
}
