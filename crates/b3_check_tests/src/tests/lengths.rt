// Long contents that fail, or are short, or of other lengths than they tell.

use super::asserts::assert_same_for;
use crate::tests::contents::{line_of, pattern};
use crate::tests::ended::{Ended, check, sum};
use crate::tests::lettered_files::{Access, LetteredFiles};
use crate::tests::owned::repeated;
use crate::tests::recording::PieceFiles;
use crate::tests::{EMPTY, check_options, lines_tally, options, tally};
use b3_check::{RunFault, SumOptions};
use std::alloc::Global;
use std::process::Abort;
use std::sync::Wait;
use std::thread::Threads;

// The bytes of a piece from any place below 251 on.
const KEPT: usize = 262_144 + 250;

const MEBIBYTE: u64 = 1 << 20;

// What a file tells of its length, or 0, and for how many bytes a read in order of it asks.
const ASKED: [(u64, usize); 8] = [
    (0, 65_536),
    (1, 4_096),
    (4_095, 4_096),
    (4_096, 4_097),
    (65_534, 65_535),
    (65_535, 65_536),
    (65_536, 65_536),
    (u64::MAX, 65_536),
];

// What is said of a file that fails once and is read after that.
const COMPLAINT: &[u8] = b"b3sum: g196608: cannot read\n";

fn by_workers(workers: u32, turns: u64) -> SumOptions {
    SumOptions {
        workers,
        ..options(turns, 0)
    }
}

// One of the calls fails: the name has no line, and nothing of it is left for the next one.
fn assert_second<R: Abort + Threads + Wait + Sync>(
    rt: &R,
    alloc: Global,
    content: &[u8],
    text: &str,
    calls_before: u64,
) {
    let files = [("g196608", content)];
    let mut shelf = PieceFiles::new(&files, 65_536, calls_before);
    let names = ["g196608", "g196608"];
    let ended = sum(rt, alloc, &mut shelf, &names, &options(4, 0));
    ended.assert(rt, text, Ok(tally(1, 1, 0)), text.as_bytes(), COMPLAINT);
}

// Call 0 begins the name, and the last of the four reads finds the end.
#[test]
fn a_failure_leaves_nothing_behind(rt: HostRuntime) {
    let text = repeated(&rt, rt.alloc(), line_of("g196608"), "\n", 1);
    let content = pattern(&rt, rt.alloc(), 196_608);
    for calls_before in 0..5 {
        assert_second(&rt, rt.alloc(), &content, text.as_str(), calls_before);
    }
}

// Three buffers and their end are read by four reads, and not by fewer.
fn assert_enough(rt: &impl Abort, ended: Ended, text: &str, turns: u64) {
    if turns < 4 {
        ended.assert(rt, "too few", Err(RunFault::EndlessInput), b"", b"");
    } else {
        ended.assert(rt, text, Ok(tally(1, 0, 0)), text.as_bytes(), b"");
    }
}

// Sums a file of three buffers by so many reads at most.
fn assert_reads<R: Abort + Threads + Wait + Sync>(
    rt: &R,
    alloc: Global,
    kept: &[u8],
    text: &str,
    access: Access,
    turns: u64,
) {
    let mut shelf = LetteredFiles::new(alloc, kept, b"", access);
    let ended = sum(rt, alloc, &mut shelf, &["g196608"], &options(turns, 0));
    assert_enough(rt, ended, text, turns);
}

// A file that is read at places may take no more reads than one that is read in order.
#[test]
fn three_buffers_and_their_last_read(rt: HostRuntime) {
    let kept = pattern(&rt, rt.alloc(), KEPT);
    let text = repeated(&rt, rt.alloc(), line_of("g196608"), "\n", 1);
    for access in [Access::InOrder, Access::AtPlaces, Access::Beside] {
        for turns in 1..5 {
            assert_reads(&rt, rt.alloc(), &kept, text.as_str(), access, turns);
        }
    }
}

// Checks a list of a right line of a long file, a wrong one and the right one again.
fn assert_list_of_long_files<R: Abort + Threads + Wait + Sync>(
    rt: &R,
    alloc: Global,
    kept: &[u8],
    list: &str,
    access: Access,
) {
    let mut shelf = LetteredFiles::new(alloc, kept, list.as_bytes(), access);
    let asked = check_options(false, 1_000);
    let ended = check(rt, alloc, &mut shelf, &["l"], &asked);
    let warning = b"b3sum: WARNING: 1 computed checksum did NOT match\n";
    let verdicts = b"g6291456: OK\ng6291456: FAILED\ng6291456: OK\n";
    ended.assert(rt, list, Ok(lines_tally(2, 1, 0, 0)), verdicts, warning);
}

fn list_of_long_files(rt: &impl Abort, alloc: Global) -> String {
    let line = line_of("g6291456");
    format!(in alloc; "{line}\n{EMPTY}  g6291456\n{line}\n").expect(rt, "memory")
}

#[test]
fn a_list_of_long_files(rt: HostRuntime) {
    let kept = pattern(&rt, rt.alloc(), KEPT);
    let list = list_of_long_files(&rt, rt.alloc());
    for access in [Access::InOrder, Access::AtPlaces] {
        assert_list_of_long_files(&rt, rt.alloc(), &kept, list.as_str(), access);
    }
}

// A file that is not read at places to its end is read in order, from its beginning.
fn assert_refused_by<R: Abort + Threads + Wait + Sync>(
    rt: &R,
    alloc: Global,
    kept: &[u8],
    text: &str,
    hint: Option<u64>,
    calls_before: u64,
    given: Option<usize>,
    workers: u32,
) {
    let mut shelf = LetteredFiles::new(alloc, kept, b"", Access::AtPlaces);
    shelf.hint = hint;
    shelf.calls_before = calls_before;
    shelf.given = given;
    let asked = by_workers(workers, 1_000);
    let ended = sum(rt, alloc, &mut shelf, &["g1048577"], &asked);
    ended.assert(rt, text, Ok(tally(1, 0, 0)), text.as_bytes(), b"");
}

fn assert_refused<R: Abort + Threads + Wait + Sync>(
    rt: &R,
    alloc: Global,
    kept: &[u8],
    hint: Option<u64>,
    calls_before: u64,
    given: Option<usize>,
) {
    let text = repeated(rt, alloc, line_of("g1048577"), "\n", 1);
    let text = text.as_str();
    assert_refused_by(rt, alloc, kept, text, hint, calls_before, given, 1);
    assert_refused_by(rt, alloc, kept, text, hint, calls_before, given, 4);
}

// The first call sees where the file ends, and each other asks for a span: whichever gives nothing or too little.
#[test]
fn a_span_that_is_not_given_or_is_short(rt: HostRuntime) {
    let kept = pattern(&rt, rt.alloc(), KEPT);
    for calls_before in [0, 1, 2, 3, 32, 64, 65] {
        for given in [None, Some(0), Some(1_024), Some(16_383)] {
            assert_refused(&rt, rt.alloc(), &kept, None, calls_before, given);
        }
    }
}

// What a file says of its length is not believed.
#[test]
fn a_length_that_is_not_so(rt: HostRuntime) {
    let kept = pattern(&rt, rt.alloc(), KEPT);
    let len = MEBIBYTE + 1;
    for hint in [len / 2, len - 1, len + 1, 5 * len] {
        assert_refused(&rt, rt.alloc(), &kept, Some(hint), u64::MAX, None);
    }
    for (hint, _) in ASKED {
        assert_refused(&rt, rt.alloc(), &kept, Some(hint), u64::MAX, None);
    }
}

// A read of a file of a byte that tells this length asks for so many bytes.
fn assert_asks<R: Abort + Threads + Wait + Sync>(
    rt: &R,
    alloc: Global,
    kept: &[u8],
    text: &str,
    hint: u64,
    asked: usize,
) {
    let mut shelf = LetteredFiles::new(alloc, kept, b"", Access::AtPlaces);
    shelf.hint = Some(hint);
    let ended = sum(rt, alloc, &mut shelf, &["g1"], &by_workers(1, 1_000));
    ended.assert(rt, text, Ok(tally(1, 0, 0)), text.as_bytes(), b"");
    assert_same_for(rt, hint, shelf.asked, asked);
}

#[test]
fn a_read_asks_for_as_many_bytes_as_a_file_tells(rt: HostRuntime) {
    let kept = pattern(&rt, rt.alloc(), KEPT);
    let text = repeated(&rt, rt.alloc(), line_of("g1"), "\n", 1);
    for (hint, asked) in ASKED {
        assert_asks(&rt, rt.alloc(), &kept, text.as_str(), hint, asked);
    }
}

// Checks a list of 1,000 lines that tells this length.
fn assert_list_read<R: Abort + Threads + Wait + Sync>(
    rt: &R,
    alloc: Global,
    kept: &[u8],
    list: &str,
    verdicts: &str,
    hint: u64,
) {
    let mut shelf = LetteredFiles::new(alloc, kept, list.as_bytes(), Access::AtPlaces);
    shelf.list_hint = hint;
    let asked = check_options(false, 100_000);
    let ended = check(rt, alloc, &mut shelf, &["l"], &asked);
    let all = Ok(lines_tally(1_000, 0, 0, 0));
    ended.assert(rt, "1,000 lines", all, verdicts.as_bytes(), b"");
}

// A list is read to its end as well, whatever it says of its length: here of 1,000 lines with 72,000 bytes.
#[test]
fn a_length_of_a_list_that_is_not_so(rt: HostRuntime) {
    let kept = pattern(&rt, rt.alloc(), KEPT);
    let list = repeated(&rt, rt.alloc(), line_of("g1024"), "\n", 1_000);
    let verdicts = repeated(&rt, rt.alloc(), "g1024", ": OK\n", 1_000);
    let (list, verdicts) = (list.as_str(), verdicts.as_str());
    for (hint, _) in ASKED {
        assert_list_read(&rt, rt.alloc(), &kept, list, verdicts, hint);
    }
}
