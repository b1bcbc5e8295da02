// What runs write and count, over devices in memory and devices that take few bytes a call.

mod asserts;
mod at_once;
mod checks;
mod contents;
mod crew;
mod crew_files;
mod ended;
mod failing;
mod faults;
mod laws;
mod lengths;
mod lettered_files;
mod memory;
mod names;
mod owned;
mod recording;
mod rendezvous;
mod sums;

use asserts::assert_same;
use b3_check::{CheckOptions, Form, KeyChoice, RunFault, SumOptions, Tally};
use std::alloc::Global;
use std::process::Abort;

// The digest of no bytes.
const EMPTY: &str = "af1349b9f5f9a1a6a0404dea36dcc9499bcb25c9adc112b7cc9a93cae41f3262";

// The digest of one byte 00.
const ONE_BYTE: &str = "2d3adedff11b61f14c886e35afa036736dcd87a74d27b5c1510225d0f592e213";

// So many names that are ok, and that cannot be read or have no line, and so many lists that failed.
const fn tally(ok: u64, failed: u64, lists: u64) -> Tally {
    Tally {
        ok,
        failed,
        lists,
        differing: 0,
        malformed: 0,
        missing: 0,
    }
}

// So many lines that are ok, whose names differ or cannot be read, and that are malformed.
const fn lines_tally(ok: u64, differing: u64, unreadable: u64, malformed: u64) -> Tally {
    Tally {
        ok,
        failed: differing
            .saturating_add(unreadable)
            .saturating_add(malformed),
        lists: 0,
        differing,
        malformed,
        missing: 0,
    }
}

// A check line of 32 bytes, without a key.
fn options(turns: u64, largest: u64) -> SumOptions {
    SumOptions {
        key: KeyChoice::Plain,
        seek: 0,
        length: 32,
        form: Form::Named,
        workers: 4,
        turns,
        largest,
    }
}

fn check_options(quiet: bool, largest: u64) -> CheckOptions {
    CheckOptions {
        quiet,
        ignore_missing: false,
        status: false,
        strict: false,
        warn: false,
        workers: 4,
        turns: 1_000,
        largest,
    }
}

// The fault has this number, and its text is this, given and written alike.
fn assert_text(rt: &impl Abort, alloc: Global, fault: RunFault, number: u8, text: &str) {
    let written = fault.to_string(alloc).expect(rt, "memory");
    assert_same(rt, fault as u8, number);
    assert_same(rt, fault.text(), text);
    assert_same(rt, written.as_str(), text);
}

#[test]
fn each_fault_has_its_text_and_number(rt: HostRuntime) {
    let table = [
        (RunFault::ReadFault, 1, "b3sum: cannot read the key"),
        (RunFault::WriteFault, 2, "b3sum: cannot write"),
        (RunFault::Memory, 3, "b3sum: out of memory"),
        (RunFault::BadKey, 4, "b3sum: the key is not 32 bytes"),
        (RunFault::EndlessInput, 5, "b3sum: endless input"),
    ];
    for (fault, number, text) in table {
        assert_text(&rt, rt.alloc(), fault, number, text);
    }
}
