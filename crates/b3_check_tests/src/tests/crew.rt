// Many names by many threads: what is said of them comes in their order and as soon as it is known.

ghost use Rattle.std.specs.Prelude.{◌≡◌, ◌^◌, ◌<◌};

use super::asserts::{assert_same, assert_same_for, assert_that, assert_that_for};
use crate::tests::crew_files::{CrewFiles, Gates, Log, LogSink, Seen, letter_of};
use crate::tests::ended::sum_into;
use crate::tests::owned::append;
use crate::tests::{EMPTY, ONE_BYTE, options, tally};
use b3_check::{RunFault, SumOptions, Tally};
use std::alloc::Global;
use std::process::Abort;
use std::sync::Wait;
use std::thread::Threads;

// The digest of 65,536 zero bytes, by another implementation.
const OF_LONG: &str = "3bdeaf8f8e98780b318106aafdc3ca257f73df123d97b69112b26044c91a7d56";

// The name of a letter at this place.
fn name_of(rt: &impl Abort, alloc: Global, letter: &str, place: usize) -> String {
    let end = if letter == "b" { "\0" } else { "" };
    format!(in alloc; "{letter}{place:03}{end}").expect(rt, "memory")
}

/// Names, and what is said of them.
#[derive(Drop)]
struct Said {
    names: Vec<String>,
    text: String,
    // how many bytes are said of the names before each
    due: Vec<u64>,
    ok: u64,
    failed: u64,
    bad: u64,
    is_endless: bool,
}

impl Said {
    fn of_none(alloc: Global) -> Said {
        Said {
            names: Vec::new(alloc),
            text: String::new(alloc),
            due: Vec::new(alloc),
            ok: 0,
            failed: 0,
            bad: 0,
            is_endless: false,
        }
    }

    // So many names, whose letters are these, over and over.
    fn of(rt: &impl Abort, alloc: Global, letters: &str, count: usize) -> Said {
        let mut said = Said::of_none(alloc);
        for place in 0..count {
            let at = place % letters.len().max(1);
            let letter = letters.get(at..at + 1).unwrap_or("");
            said.add(rt, name_of(rt, alloc, letter, place));
        }
        said
    }

    // Of a name after one that has no end nothing is said.
    fn add(&mut self, rt: &impl Abort, name: String) {
        append(rt, &mut self.due, self.text.len() as u64);
        let letter = letter_of(name.as_str());
        self.is_endless = self.is_endless || letter == b'e';
        if !self.is_endless {
            self.say(rt, letter, name.as_str());
        }
        append(rt, &mut self.names, name);
    }

    fn say(&mut self, rt: &impl Abort, letter: u8, name: &str) {
        match letter {
            b'q' | b's' => self.add_line(rt, EMPTY, name),
            b'l' => self.add_line(rt, OF_LONG, name),
            b't' | b'c' => self.add_line(rt, ONE_BYTE, name),
            _ => self.add_complaint(rt, letter, name),
        }
    }

    fn add_line(&mut self, rt: &impl Abort, digest: &str, name: &str) {
        write!(self.text, "{digest}  {name}\n").expect(rt, "memory");
        self.ok = self.ok.saturating_add(1);
    }

    fn add_complaint(&mut self, rt: &impl Abort, letter: u8, name: &str) {
        let why = if letter == b'b' {
            "bad name"
        } else {
            "cannot read"
        };
        write!(self.text, "b3sum: {name}: {why}\n").expect(rt, "memory");
        self.bad = self.bad.saturating_add(u64::from(letter == b'b'));
        self.failed = self.failed.saturating_add(1);
    }

    fn answer(&self) -> Result<Tally, RunFault> {
        if self.is_endless {
            return Err(RunFault::EndlessInput);
        }
        Ok(tally(self.ok, self.failed, 0))
    }

    // The answer where a write failed, or none did.
    fn answer_after(&self, is_write_fault: bool) -> Result<Tally, RunFault> {
        if is_write_fault {
            return Err(RunFault::WriteFault);
        }
        self.answer()
    }

    // The names were asked of this shelf as they should be. Where one has no end, nobody knows how many were.
    fn assert_asked(&self, rt: &impl Abort, shelf: &CrewFiles<'_>, workers: u32, letters: &str) {
        if !self.is_endless {
            let failures = self.failed.saturating_sub(self.bad);
            shelf.assert_asked(rt, &self.names, failures, workers, letters);
        }
    }
}

// So many workers, and outputs of so many bytes.
fn by(workers: u32, length: u32) -> SumOptions {
    SumOptions {
        workers,
        length,
        ..options(3, 0)
    }
}

// Sums the names of a shelf.
fn sum_shelf<R: Abort + Threads + Wait + Sync>(
    rt: &R,
    alloc: Global,
    said: &Said,
    shelf: &mut CrewFiles<'_>,
    log: &Log<'_>,
    asked: &SumOptions,
) -> Result<Tally, RunFault>
    requires { shelf.old.failures < 2 ^ 63 }
{
    let mut out = LogSink::new(log);
    let mut err = LogSink::new(log);
    sum_into(rt, alloc, shelf, &said.names, &mut out, &mut err, asked)
}

// Sums the names, at two of which these gates hold a thread.
fn sum_held<R: Abort + Threads + Wait + Sync>(
    rt: &R,
    alloc: Global,
    said: &Said,
    gates: &Gates,
    log: &Log<'_>,
    asked: &SumOptions,
) -> Result<Tally, RunFault> {
    let mut shelf = CrewFiles::new(rt, alloc, log.seen(), &said.due, gates);
    sum_shelf(rt, alloc, said, &mut shelf, log, asked)
}

// Sums the names, and holds no thread.
fn sum_freely<R: Abort + Threads + Wait + Sync>(
    rt: &R,
    alloc: Global,
    said: &Said,
    log: &Log<'_>,
    asked: &SumOptions,
) -> Result<Tally, RunFault> {
    sum_held(rt, alloc, said, &Gates::open(), log, asked)
}

fn assert_order<R: Abort + Threads + Wait + Sync>(
    rt: &R,
    alloc: Global,
    said: &Said,
    letters: &str,
    workers: u32,
    may_wait: bool,
) {
    let seen = Seen::new();
    let gates = Gates::open();
    let mut shelf = CrewFiles::new(rt, alloc, &seen, &said.due, &gates);
    let log = Log::new(alloc, &seen, may_wait);
    let answer = sum_shelf(rt, alloc, said, &mut shelf, &log, &by(workers, 32));
    assert_that_for(rt, (letters, workers), log.has(said.text.as_bytes()));
    assert_same_for(rt, (letters, workers), answer, said.answer());
    said.assert_asked(rt, &shelf, workers, letters);
}

// So many names of these letters are summed so often.
fn assert_orders<R: Abort + Threads + Wait + Sync>(
    rt: &R,
    alloc: Global,
    letters: &str,
    count: usize,
    times: u64,
) {
    let said = Said::of(rt, alloc, letters, count);
    for workers in [1, 2, 64] {
        for turn in 0..times {
            assert_order(rt, alloc, &said, letters, workers, turn % 2 == 0);
        }
    }
}

const ORDERS: &[(&str, usize, u64)] = &[
    ("q", 9, 6),
    ("sq", 9, 6),
    ("tqqqqqqqq", 9, 6),
    ("qqqqtqqqq", 9, 6),
    ("qqqqqqqqt", 9, 6),
    ("ttttttttq", 9, 6),
    ("qt", 9, 6),
    ("tq", 9, 6),
    ("qsmdbtcfv", 45, 4),
    ("svqcmfstdbqqqq", 300, 2),
    ("bbbbbbbqt", 9, 6),
    ("qqqqe", 9, 6),
];

#[test]
fn each_order_of_names_by_each_number_of_workers(rt: HostRuntime) {
    for (letters, count, times) in ORDERS {
        assert_orders(&rt, rt.alloc(), letters, *count, *times);
    }
}

// Two workers, and files that are long enough that what is known is written before another is looked at. One worker is
// held at a name until the other is at a later one, which is held until a name behind it is asked for: whichever of them
// writes, what comes before is written by then, and nothing else.
fn assert_held<R: Abort + Threads + Wait + Sync>(
    rt: &R,
    alloc: Global,
    said: &Said,
    first: usize,
    second: usize,
    may_wait: bool,
) {
    let seen = Seen::new();
    let gates = Gates::new(first, second);
    let log = Log::new(alloc, &seen, may_wait);
    let answer = sum_held(rt, alloc, said, &gates, &log, &by(2, 32));
    assert_that_for(rt, (first, second), log.has(said.text.as_bytes()));
    assert_same(rt, answer, said.answer());
    gates.assert(rt, &said.due);
}

const HELD: &[(usize, usize)] = &[(1, 3), (4, 6), (9, 17), (20, 22)];

#[test]
fn what_is_known_is_written_while_a_later_name_is_held(rt: HostRuntime) {
    let said = Said::of(&rt, rt.alloc(), "l", 24);
    for (first, second) in HELD {
        for may_wait in [true, false, true, false] {
            assert_held(&rt, rt.alloc(), &said, *first, *second, may_wait);
        }
    }
}

// The first write lasts until the last of a hundred names is asked for, where there is a second thread to do so.
fn assert_writes<R: Abort + Threads + Wait + Sync>(
    rt: &R,
    alloc: Global,
    may_wait: bool,
    length: u32,
    writes: [u64; 2],
    longest: [usize; 2],
) {
    let said = Said::of(rt, alloc, "q", 100);
    let seen = Seen::new();
    let mut log = Log::new(alloc, &seen, may_wait);
    log.wanted = 100;
    let answer = sum_freely(rt, alloc, &said, &log, &by(2, length));
    assert_same(rt, answer, Ok(tally(100, 0, 0)));
    log.assert_writes(rt, writes, longest);
}

// The lines of 71 bytes that are known by then go in one write, and the last may come alone. Lines of 2,007 bytes go in
// writes of 64 KiB and at most two lines. Where lines may not wait, each is written alone.
#[test]
fn lines_that_are_known_go_in_one_write(rt: HostRuntime) {
    let alloc = rt.alloc();
    assert_writes(&rt, alloc, true, 32, [1, 3], [3_479, 7_100]);
    assert_writes(&rt, alloc, true, 1_000, [3, 6], [65_536, 69_550]);
    assert_writes(&rt, alloc, false, 32, [100, 100], [71, 71]);
}

// Whichever write fails, the run ends with it: what was written is a beginning of the whole.
fn assert_fault<R: Abort + Threads + Wait + Sync>(
    rt: &R,
    alloc: Global,
    said: &Said,
    workers: u32,
    may_wait: bool,
    writes_before: u64,
) {
    let seen = Seen::new();
    let mut log = Log::new(alloc, &seen, may_wait);
    log.writes_before = writes_before;
    let answer = sum_freely(rt, alloc, said, &log, &by(workers, 32));
    let expected = said.answer_after(log.writes() > writes_before);
    assert_same(rt, answer, expected);
    assert_that(rt, may_wait || answer.is_err());
    assert_that(rt, log.writes() <= writes_before.saturating_add(1));
    assert_that(rt, log.is_beginning_of(said.text.as_bytes()));
}

#[test]
fn each_write_fails(rt: HostRuntime) {
    let said = Said::of(&rt, rt.alloc(), "qsmdtcfvb", 18);
    for workers in [1, 2, 8] {
        for writes_before in 0..18u64 {
            assert_fault(&rt, rt.alloc(), &said, workers, true, writes_before);
            assert_fault(&rt, rt.alloc(), &said, workers, false, writes_before);
        }
    }
}

// The write that fails lasts as long as names are asked for meanwhile. Where lines have a mebibyte, no more than four
// are asked for beyond those that are said.
fn assert_asked_beyond<R: Abort + Threads + Wait + Sync>(
    rt: &R,
    alloc: Global,
    said: &Said,
    writes_before: u64,
) {
    let seen = Seen::new();
    let mut log = Log::new(alloc, &seen, false);
    log.writes_before = writes_before;
    log.held_write = writes_before;
    log.wanted = u64::MAX;
    log.patience = 500;
    let answer = sum_freely(rt, alloc, said, &log, &by(2, 1 << 19));
    let looked = seen.looked();
    assert_same(rt, answer, Err(RunFault::WriteFault));
    assert_that_for(
        rt,
        (writes_before, looked),
        looked <= writes_before.saturating_add(4),
    );
}

#[test]
fn few_names_are_asked_for_while_a_write_of_long_lines_lasts(rt: HostRuntime) {
    let said = Said::of(&rt, rt.alloc(), "qmmmmmmmmm", 40);
    for writes_before in [0u64, 2, 7] {
        assert_asked_beyond(&rt, rt.alloc(), &said, writes_before);
    }
}
