// Files of the official test vectors, summed and checked.

use super::asserts::assert_same;
use super::{EMPTY, ONE_BYTE};
use crate::tests::owned::{bytes_of, string_of};
use b3_laws::{File, SumsAndChecks, sums_check};
use std::alloc::Global;
use std::process::Abort;

fn file(rt: &impl Abort, alloc: Global, name: &str, content: &[u8]) -> File {
    File {
        name: string_of(rt, alloc, name),
        content: bytes_of(rt, alloc, content),
    }
}

// The lines of both files.
fn lines(rt: &impl Abort, alloc: Global) -> String {
    format!(in alloc; "{EMPTY}  Z0\n{ONE_BYTE}  Z1\n").expect(rt, "memory")
}

fn assert_both(rt: &impl Abort, both: &SumsAndChecks, sums: &[u8]) {
    assert_same(rt, both.sums.out.as_slice(), sums);
    assert_same(rt, both.sums.err.as_slice(), b"");
    assert_same(rt, both.sums.tally.ok, 2);
    assert_same(rt, both.checks.out.as_slice(), b"Z0: OK\nZ1: OK\n");
    assert_same(rt, both.checks.err.as_slice(), b"");
    assert_same(rt, both.checks.tally.ok, 2);
}

#[test]
fn what_was_summed_checks_as_ok(rt: HostRuntime) {
    let alloc = rt.alloc();
    let files = [file(&rt, alloc, "Z0", b""), file(&rt, alloc, "Z1", b"\0")];
    let both = sums_check(&rt, alloc, &files, "SUMS", 4).expect(&rt, "both runs");
    assert_both(&rt, &both, lines(&rt, alloc).as_bytes());
}
