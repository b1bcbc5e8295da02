// Many names in no order: what is written of them is the same by any number of workers, one after the other and beside
// one another, and each name that is not hashed beside others, nor missing there, is begun once, in its turn.

use super::asserts::{assert_same, assert_same_for};
use crate::tests::contents::pattern;
use crate::tests::ended::{Ended, check, sum, sum_into, sum_owned};
use crate::tests::lettered_files::{Access, LetteredFiles, number_in};
use crate::tests::owned::{append, append_bytes, append_text, bytes_of, strings};
use crate::tests::recording::PieceSink;
use crate::tests::{check_options, lines_tally, options, tally};
use b3_check::{CheckOptions, MemorySink, RunFault, SumOptions, Tally};
use b3_hash::hash;
use b3_lines::write_line;
use std::alloc::Global;
use std::process::Abort;
use std::sync::Wait;
use std::thread::Threads;

// As many bytes as the longest file here has, and 250 more.
const KEPT: usize = 3_001 + 250;

// The name that a random number makes.
fn name_of(rt: &impl Abort, alloc: Global, random: u64) -> String {
    let letter = match random >> 60 {
        0 | 1 => "m",
        2 | 3 => "f",
        _ => "g",
    };
    format!(in alloc; "{letter}{}", 1 + (random >> 32) % 3_000).expect(rt, "memory")
}

// Files of 1 to 3,000 bytes, at random: two in sixteen are not there, and two fail.
fn thousand_names(rt: &impl Abort, alloc: Global) -> Vec<String> {
    let mut names = Vec::new(alloc);
    let mut state = 1u64;
    for _ in 0..1_000usize {
        state = state
            .wrapping_mul(6_364_136_223_846_793_005)
            .wrapping_add(1_442_695_040_888_963_407);
        append(rt, &mut names, name_of(rt, alloc, state));
    }
    names
}

// The line of a file of this name.
fn line_for(rt: &impl Abort, alloc: Global, content: &[u8], name: &str) -> Vec<u8> {
    write_line(alloc, &hash(content), name).expect(rt, "a line")
}

/// What is said of names, one after the other, and of a list of their lines, each before one that is malformed.
#[derive(Drop)]
struct Texts {
    lines: Vec<u8>,
    complaints: String,
    list: Vec<u8>,
    verdicts: String,
    warnings: String,
    // the names that are begun where others are hashed beside one another, or missing
    begun: String,
    ok: u64,
    failed: u64,
}

impl Texts {
    fn of_none(alloc: Global) -> Texts {
        Texts {
            lines: Vec::new(alloc),
            complaints: String::new(alloc),
            list: Vec::new(alloc),
            verdicts: String::new(alloc),
            warnings: String::new(alloc),
            begun: String::new(alloc),
            ok: 0,
            failed: 0,
        }
    }

    // The next name is said.
    fn add(&mut self, rt: &impl Abort, alloc: Global, kept: &[u8], name: &str) {
        let content = kept.get(..number_in(name) as usize).unwrap_or(b"");
        let line = line_for(rt, alloc, content, name);
        self.add_to_list(rt, line.as_slice());
        if name.starts_with("g") {
            self.add_right(rt, name, line.as_slice());
        } else {
            self.add_wrong(rt, name);
        }
    }

    fn add_to_list(&mut self, rt: &impl Abort, line: &[u8]) {
        append_bytes(rt, &mut self.list, line);
        append_bytes(rt, &mut self.list, b"no line\n");
        let names = self.ok.saturating_add(self.failed).saturating_add(1);
        let number = names.saturating_mul(2);
        write!(self.warnings, "b3sum: line {number}: short line\n").expect(rt, "memory");
    }

    fn add_right(&mut self, rt: &impl Abort, name: &str, line: &[u8]) {
        append_bytes(rt, &mut self.lines, line);
        append_text(rt, &mut self.verdicts, name);
        append_text(rt, &mut self.verdicts, ": OK\n");
        self.ok = self.ok.saturating_add(1);
    }

    fn add_wrong(&mut self, rt: &impl Abort, name: &str) {
        write!(self.complaints, "b3sum: {name}: cannot read\n").expect(rt, "memory");
        append_text(rt, &mut self.verdicts, name);
        append_text(rt, &mut self.verdicts, ": FAILED (cannot read)\n");
        if name.starts_with("f") {
            append_text(rt, &mut self.begun, name);
            append_text(rt, &mut self.begun, "\n");
        }
        self.failed = self.failed.saturating_add(1);
    }

    // The list ends, of which so many lines failed.
    fn warn(&mut self, rt: &impl Abort, failed: u64) {
        let warning = "computed checksums did NOT match";
        write!(self.warnings, "b3sum: WARNING: {failed} {warning}\n").expect(rt, "memory");
    }

    // The names that are begun, of all of these.
    fn begun_of<'t>(&'t self, access: Access, all: &'t str) -> &'t str {
        if access == Access::Beside {
            return self.begun.as_str();
        }
        all
    }

    // A sum of these names answered this, and wrote just these texts.
    fn assert_sum(&self, rt: &impl Abort, workers: u32, ended: Ended) {
        let counts = tally(self.ok, self.failed, 0);
        assert_same_for(rt, workers, ended.answer, Ok(counts));
        assert_same_for(rt, workers, ended.out.as_slice(), self.lines.as_slice());
        assert_same_for(
            rt,
            workers,
            ended.err.as_slice(),
            self.complaints.as_bytes(),
        );
    }

    // A check of their list answered this, and wrote just these texts.
    fn assert_check(&self, rt: &impl Abort, malformed: u64, ended: Ended) {
        let counts = lines_tally(self.ok, 0, self.failed, malformed);
        let verdicts = self.verdicts.as_bytes();
        ended.assert(rt, "a list", Ok(counts), verdicts, self.warnings.as_bytes());
    }
}

fn texts_of(rt: &impl Abort, alloc: Global, kept: &[u8], names: &[String]) -> Texts {
    let mut texts = Texts::of_none(alloc);
    for name in names {
        texts.add(rt, alloc, kept, name.as_str());
    }
    let failed = texts.failed.saturating_add(names.len() as u64);
    texts.warn(rt, failed);
    texts
}

// Each name with a line feed.
fn with_feeds(rt: &impl Abort, alloc: Global, names: &[String]) -> String {
    let mut text = String::new(alloc);
    for name in names {
        append_text(rt, &mut text, name.as_str());
        append_text(rt, &mut text, "\n");
    }
    text
}

// Sums the names: these texts are written, and these names are begun.
fn assert_sum<R: Abort + Threads + Wait + Sync>(
    rt: &R,
    alloc: Global,
    kept: &[u8],
    texts: &Texts,
    names: &[String],
    begun: &str,
    workers: u32,
    access: Access,
) {
    let mut shelf = LetteredFiles::new(alloc, kept, texts.list.as_slice(), access);
    shelf.most = 20_000;
    let asked = SumOptions {
        workers,
        ..options(4, 0)
    };
    let ended = sum_owned(rt, alloc, &mut shelf, names, &asked);
    texts.assert_sum(rt, workers, ended);
    assert_same(rt, shelf.failures(), texts.failed);
    assert_same(rt, shelf.begun(), begun.as_bytes());
}

// Checks the list of their lines, each before one that is malformed.
fn assert_check<R: Abort + Threads + Wait + Sync>(
    rt: &R,
    alloc: Global,
    kept: &[u8],
    texts: &Texts,
    malformed: u64,
    workers: u32,
    access: Access,
) {
    let mut shelf = LetteredFiles::new(alloc, kept, texts.list.as_slice(), access);
    shelf.most = 20_000;
    let asked = CheckOptions {
        workers,
        ..check_options(false, 200_000)
    };
    let ended = check(rt, alloc, &mut shelf, &["l"], &asked);
    texts.assert_check(rt, malformed, ended);
    assert_same(rt, shelf.failures(), texts.failed);
}

// Sums the names and checks their lines.
fn assert_names<R: Abort + Threads + Wait + Sync>(
    rt: &R,
    alloc: Global,
    names: &[String],
    workers: u32,
    access: Access,
) {
    let kept = pattern(rt, alloc, KEPT);
    let texts = texts_of(rt, alloc, &kept, names);
    let all = with_feeds(rt, alloc, names);
    let begun = texts.begun_of(access, all.as_str());
    let malformed = names.len() as u64;
    assert_sum(rt, alloc, &kept, &texts, names, begun, workers, access);
    assert_check(rt, alloc, &kept, &texts, malformed, workers, access);
}

#[test]
fn a_thousand_names_of_which_some_cannot_be_read(rt: HostRuntime) {
    let names = thousand_names(&rt, rt.alloc());
    for workers in [1, 4] {
        for access in [Access::AtPlaces, Access::Beside] {
            assert_names(&rt, rt.alloc(), &names, workers, access);
        }
    }
}

// What a run over a few names answered, wrote and began.
#[derive(Drop)]
struct Came {
    answer: Result<Tally, RunFault>,
    out: Vec<u8>,
    begun: Vec<u8>,
    failures: u64,
}

impl Came {
    // The run answered this, wrote just these bytes, and began these names.
    fn assert(self, rt: &impl Abort, answer: Result<Tally, RunFault>, out: &[u8], begun: &[u8]) {
        assert_same(rt, self.answer, answer);
        assert_same(rt, self.begun.as_slice(), begun);
        assert_same(rt, self.out.as_slice(), out);
    }
}

// Sums names that are hashed one after the other, by reads of a thousand bytes. The output takes so many bytes.
fn sum_few<R: Abort + Threads + Wait + Sync>(
    rt: &R,
    alloc: Global,
    names: &[&str],
    most: usize,
) -> Came {
    let kept = pattern(rt, alloc, KEPT);
    let asked = strings(rt, alloc, names);
    let mut shelf = LetteredFiles::new(alloc, &kept, b"", Access::AtPlaces);
    shelf.most = 1_000;
    let mut out = PieceSink::new(alloc, 1, most as u64);
    let mut err = MemorySink::new(alloc);
    let limits = options(4, 0);
    let answer = sum_into(rt, alloc, &mut shelf, &asked, &mut out, &mut err, &limits);
    Came {
        answer,
        begun: bytes_of(rt, alloc, shelf.begun()),
        out: out.bytes,
        failures: shelf.failures(),
    }
}

// The line of a file of three thousand bytes.
fn first_line(rt: &impl Abort, alloc: Global) -> Vec<u8> {
    line_for(rt, alloc, &pattern(rt, alloc, 3_000), "g3000")
}

// That line twice.
fn first_line_twice(rt: &impl Abort, alloc: Global) -> Vec<u8> {
    first_line(rt, alloc).repeat(alloc, 2).expect(rt, "memory")
}

#[test]
fn a_name_asked_twice_in_a_row_is_begun_twice(rt: HostRuntime) {
    let lines = first_line_twice(&rt, rt.alloc());
    let came = sum_few(&rt, rt.alloc(), &["g3000", "g3000"], 1_000);
    came.assert(&rt, Ok(tally(2, 0, 0)), &lines, b"g3000\ng3000\n");
}

// The write of the first line fails: no name after it is begun.
#[test]
fn a_write_that_fails_ends_the_run(rt: HostRuntime) {
    let line = first_line(&rt, rt.alloc());
    for taken in 0..line.len() {
        let came = sum_few(&rt, rt.alloc(), &["g3000", "m1", "g1"], taken);
        assert_same(&rt, came.failures, 0);
        let fault = Err(RunFault::WriteFault);
        came.assert(&rt, fault, &line[..taken], b"g3000\n");
    }
}

// Four reads, of which the last one finds the end, are too few for the second file. Its fault comes after
// the first line.
#[test]
fn a_fault_comes_after_the_line(rt: HostRuntime) {
    let line = first_line(&rt, rt.alloc());
    let came = sum_few(&rt, rt.alloc(), &["g3000", "g3001", "m1"], 1_000);
    assert_same(&rt, came.failures, 0);
    let fault = Err(RunFault::EndlessInput);
    came.assert(&rt, fault, &line, b"g3000\ng3001\n");
}

// So many empty contents are hashed beside one another by so many reads, each of which might have this length.
fn assert_longest<R: Abort + Threads + Wait + Sync>(
    rt: &R,
    alloc: Global,
    count: usize,
    turns: u64,
    max_len: u64,
) {
    let mut shelf = LetteredFiles::new(alloc, b"", b"", Access::Beside);
    let names = ["g0"; 8];
    let names = &names[..count.min(8)];
    let ended = sum(rt, alloc, &mut shelf, names, &options(turns, 0));
    assert_same(rt, ended.answer, Ok(tally(count as u64, 0, 0)));
    assert_same_for(rt, (count, turns), shelf.max_len(), max_len);
}

// A content that is hashed beside others has at most 32 MiB by four workers, 2 MiB where there are less than two names
// for each of them, and no more than is read in order by as many reads as are allowed.
#[test]
fn a_content_beside_others_is_not_too_long(rt: HostRuntime) {
    for (count, turns, max_len) in [
        (8usize, 1_000u64, 33_554_432u64),
        (7, 1_000, 2_097_152),
        (2, 1_000, 2_097_152),
        (8, 3, 196_607),
        (7, 1, 65_535),
    ] {
        assert_longest(&rt, rt.alloc(), count, turns, max_len);
    }
}
