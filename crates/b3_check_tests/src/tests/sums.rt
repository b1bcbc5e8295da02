// Runs that write digests.

use super::asserts::{assert_same_for, assert_that_for};
use crate::tests::ended::sum;
use crate::tests::failing::EndlessFile;
use crate::tests::recording::PieceFiles;
use crate::tests::{options, tally};
use b3_check::{KeyChoice, RunFault, SumOptions, Tally};
use std::alloc::Global;
use std::process::Abort;
use std::sync::Wait;
use std::thread::Threads;

const KEY: &[u8] = b"whats the Elvish word for friend";

// Sums a file by one read of it, with the key of the standard input: nothing is complained of.
fn assert_keyed<R: Abort + Threads + Wait + Sync>(
    rt: &R,
    alloc: Global,
    name: &str,
    expected: Result<Tally, RunFault>,
) {
    let files = [("-", KEY), ("e", b""), ("x", b"\0")];
    let mut shelf = PieceFiles::new(&files, 1, u64::MAX);
    let asked = SumOptions {
        key: KeyChoice::Keyed,
        ..options(1, 32)
    };
    let ended = sum(rt, alloc, &mut shelf, &[name], &asked);
    assert_same_for(rt, name, ended.answer, expected);
    assert_that_for(rt, name, ended.err.is_empty());
}

// The 33 reads of the key are not bounded by `turns`; the one read of the file is.
#[test]
fn a_key_may_take_more_reads_than_a_file(rt: HostRuntime) {
    assert_keyed(&rt, rt.alloc(), "e", Ok(tally(1, 0, 0)));
    assert_keyed(&rt, rt.alloc(), "x", Err(RunFault::EndlessInput));
}

#[test]
fn a_content_that_has_no_end(rt: HostRuntime) {
    let mut shelf = EndlessFile::new();
    let ended = sum(&rt, rt.alloc(), &mut shelf, &["-"], &options(100, 1_000));
    ended.assert(&rt, "for ever", Err(RunFault::EndlessInput), b"", b"");
}
