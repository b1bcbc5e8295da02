// As many workers as are asked for work at the same time: on the spans of one content, and on contents beside one
// another.

use super::asserts::{assert_same, assert_same_for, assert_that_for};
use crate::tests::contents::{line_of, pattern};
use crate::tests::ended::{Ended, check, check_behind, sum, sum_behind};
use crate::tests::lettered_files::{Access, LetteredFiles};
use crate::tests::owned::repeated;
use crate::tests::rendezvous::{AllAtOnce, Rendezvous};
use crate::tests::{check_options, options, tally};
use b3_check::{CheckOptions, SumOptions};
use std::alloc::Global;
use std::process::Abort;
use std::sync::Wait;
use std::thread::Threads;

fn sum_by(workers: u32) -> SumOptions {
    SumOptions {
        workers,
        ..options(1_000, 0)
    }
}

fn check_by(workers: u32) -> CheckOptions {
    CheckOptions {
        workers,
        ..check_options(false, 100_000)
    }
}

// All workers that are asked for and no more were behind the gate at the same time, and each span passed it once.
fn assert_passed(
    rt: &impl Abort,
    gate: &AllAtOnce,
    workers: u32,
    spans: u64,
    ended: Ended,
    text: &str,
) {
    ended.assert(rt, text, Ok(tally(1, 0, 0)), text.as_bytes(), b"");
    assert_that_for(rt, workers, gate.workers.is_complete());
    assert_same(rt, gate.workers.arrived(), workers);
    assert_same_for(rt, workers, gate.calls(), spans);
}

// Behind a gate that holds each worker until all have come.
fn assert_sum_behind<R: Abort + Threads + Wait + Sync>(
    rt: &R,
    alloc: Global,
    kept: &[u8],
    name: &str,
    line: &str,
    workers: u32,
    spans: u64,
) {
    let mut shelf = LetteredFiles::new(alloc, kept, b"", Access::AtPlaces);
    let gate = AllAtOnce::new(workers);
    let ended = sum_behind(rt, alloc, &mut shelf, name, &sum_by(workers), &gate);
    assert_passed(rt, &gate, workers, spans, ended, line);
}

// The same of a check of a list.
fn assert_check_behind<R: Abort + Threads + Wait + Sync>(
    rt: &R,
    alloc: Global,
    kept: &[u8],
    list: &str,
    verdict: &str,
    workers: u32,
    spans: u64,
) {
    let mut shelf = LetteredFiles::new(alloc, kept, list.as_bytes(), Access::AtPlaces);
    let gate = AllAtOnce::new(workers);
    let ended = check_behind(rt, alloc, &mut shelf, &check_by(workers), &gate);
    assert_passed(rt, &gate, workers, spans, ended, verdict);
}

// By either engine.
fn assert_behind<R: Abort + Threads + Wait + Sync>(
    rt: &R,
    alloc: Global,
    name: &str,
    workers: u32,
    spans: u64,
) {
    let kept = pattern(rt, alloc, 262_144 + 250);
    let line = repeated(rt, alloc, line_of(name), "\n", 1);
    let verdict = repeated(rt, alloc, name, ": OK\n", 1);
    let (line, verdict) = (line.as_str(), verdict.as_str());
    assert_sum_behind(rt, alloc, &kept, name, line, workers, spans);
    assert_check_behind(rt, alloc, &kept, line, verdict, workers, spans);
}

// A shelf that holds each call of a thread until as many as there are workers have come: these files are asked of it,
// behind the open gate.
fn assert_sum_asked<R: Abort + Threads + Wait + Sync>(
    rt: &R,
    alloc: Global,
    access: Access,
    kept: &[u8],
    names: &[&str],
    lines: &str,
    workers: u32,
) {
    let mut shelf = LetteredFiles::new(alloc, kept, b"", access);
    shelf.readers = Rendezvous::new(workers);
    let ended = sum(rt, alloc, &mut shelf, names, &sum_by(workers));
    let counts = tally(names.len() as u64, 0, 0);
    ended.assert(rt, lines, Ok(counts), lines.as_bytes(), b"");
    assert_that_for(rt, workers, shelf.readers.is_complete());
}

// The same of a check of a list of so many files.
fn assert_check_asked<R: Abort + Threads + Wait + Sync>(
    rt: &R,
    alloc: Global,
    access: Access,
    kept: &[u8],
    list: &str,
    files: usize,
    verdicts: &str,
    workers: u32,
) {
    let mut shelf = LetteredFiles::new(alloc, kept, list.as_bytes(), access);
    shelf.readers = Rendezvous::new(workers);
    let ended = check(rt, alloc, &mut shelf, &["l"], &check_by(workers));
    let counts = tally(files as u64, 0, 0);
    ended.assert(rt, list, Ok(counts), verdicts.as_bytes(), b"");
    assert_that_for(rt, workers, shelf.readers.is_complete());
}

// A name, so often.
fn names_of<'n>(rt: &impl Abort, alloc: Global, name: &'n str, files: usize) -> Vec<&'n str> {
    vec![in alloc; name; files].expect(rt, "memory")
}

// By either engine: so many files of one line.
fn assert_asked<R: Abort + Threads + Wait + Sync>(
    rt: &R,
    alloc: Global,
    access: Access,
    name: &str,
    line: &str,
    files: usize,
    workers: u32,
) {
    let kept = pattern(rt, alloc, 262_144 + 250);
    let names = names_of(rt, alloc, name, files);
    let lines = repeated(rt, alloc, line, "\n", files);
    let verdicts = repeated(rt, alloc, name, ": OK\n", files);
    let (lines, verdicts) = (lines.as_str(), verdicts.as_str());
    assert_sum_asked(rt, alloc, access, &kept, &names, lines, workers);
    assert_check_asked(rt, alloc, access, &kept, lines, files, verdicts, workers);
}

// One content, behind both.
fn assert_at_once<R: Abort + Threads + Wait + Sync>(
    rt: &R,
    alloc: Global,
    name: &str,
    workers: u32,
    spans: u64,
) {
    assert_behind(rt, alloc, name, workers, spans);
    assert_asked(rt, alloc, Access::AtPlaces, name, line_of(name), 1, workers);
}

// Two workers over three spans.
#[test]
fn two_at_once(rt: HostRuntime) {
    assert_at_once(&rt, rt.alloc(), "g40000", 2, 3);
}

// Spans have 16 KiB, or 256 KiB where each worker gets four of these. A further worker than two starts for each
// 256 KiB.
#[test]
fn all_workers_at_once(rt: HostRuntime) {
    for (name, workers, spans) in [
        ("g524288", 2, 32),
        ("g786432", 3, 48),
        ("g1048576", 4, 64),
        ("g6291457", 4, 25),
        ("g16777216", 64, 1_024),
    ] {
        assert_at_once(&rt, rt.alloc(), name, workers, spans);
    }
}

#[test]
fn all_workers_beside_one_another(rt: HostRuntime) {
    let line = line_of("g1");
    for workers in [2, 3, 4, 64u32] {
        let files = workers as usize;
        assert_asked(&rt, rt.alloc(), Access::Beside, "g1", line, files, workers);
    }
}
