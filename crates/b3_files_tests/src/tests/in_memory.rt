// The sum of one name over files in memory.

use super::asserts::{assert_same, assert_that};
use super::files::EMPTY;
use super::steps::Step::{HashWhole, Lacks};
use super::steps::assert_shelf;
use crate::in_memory::sum_one;
use b3_check::{MemorySink, NoContent};
use b3_files::{MemoryDisk, MemoryFile, NamedFile};
use std::alloc::Global;
use std::process::Abort;

const FILES: [NamedFile<'static>; 2] = [
    NamedFile {
        name: "abc",
        content: b"abc",
    },
    NamedFile {
        name: "empty",
        content: b"",
    },
];

#[test]
fn what_is_known_before_the_turn_of_a_name(rt: HostRuntime) {
    let steps = [
        HashWhole("empty", 0, Some(EMPTY)),
        HashWhole("abc", 2, None),
        Lacks("abc", None),
        HashWhole("gone", u64::MAX, None),
        Lacks("gone", Some(NoContent::Missing)),
        HashWhole("-", u64::MAX, None),
        Lacks("-", None),
    ];
    assert_shelf(&rt, MemoryDisk::new(&FILES), MemoryFile::new(b""), &steps);
}

fn name_of(rt: &impl Abort, alloc: Global, name: &str) -> String {
    String::from_str(alloc, name).expect(rt, "memory")
}

#[test]
fn a_name_has_its_line(rt: HostRuntime) {
    let alloc = rt.alloc();
    let mut out = MemorySink::new(alloc);
    let mut err = MemorySink::new(alloc);
    let name = name_of(&rt, alloc, "abc");
    let answer = sum_one(&rt, alloc, &FILES, b"", name, &mut out, &mut err);
    assert_that(
        &rt,
        answer.is_ok_and(|tally| tally.ok == 1 && tally.failed == 0),
    );
    let line = b"6437b3ac38465133ffb63b75273a8db548c558465d79db03fd359c6cd5bd9d85  abc\n";
    assert_same(&rt, out.bytes(), line.as_slice());
    assert_that(&rt, err.bytes().is_empty());
}
