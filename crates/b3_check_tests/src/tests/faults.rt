// Lists over devices that fail at one call.

ghost use Rattle.std.specs.Prelude.{◌≡◌};

use crate::tests::checks::{THREE_COMPLAINTS, THREE_LINES, THREE_VERDICTS};
use crate::tests::ended::{Ended, check_into};
use crate::tests::failing::FailingShelf;
use crate::tests::owned::strings;
use crate::tests::recording::PieceSink;
use crate::tests::{check_options, lines_tally, tally};
use b3_check::{MemoryShelf, RunFault, Shelf, Tally};
use std::alloc::Global;
use std::process::Abort;
use std::sync::Wait;
use std::thread::Threads;

// Puts a file on the shelf.
fn put(rt: &impl Abort, shelf: &mut MemoryShelf, name: &str, content: &[u8])
    ensures { ⟦<MemoryShelf as Shelf>⟧.failures shelf.new ≡ ⟦<MemoryShelf as Shelf>⟧.failures shelf.old }
{
    shelf.put(name, content).expect(rt, "memory");
}

// The list of three lines and its files.
fn three_files(rt: &impl Abort, alloc: Global) -> MemoryShelf
    ensures { ⟦<MemoryShelf as Shelf>⟧.failures result ≡ 0 }
{
    let mut shelf = MemoryShelf::new(alloc);
    put(rt, &mut shelf, "l", THREE_LINES);
    put(rt, &mut shelf, "x", b"\0");
    put(rt, &mut shelf, "y", b"");
    shelf
}

// Checks the list of three lines. The call of the shelf after so many fails, and so does the write of each sink.
fn three_lines<R: AllocGlobal + Abort + Threads + Wait + Sync>(
    rt: &R,
    calls_before: u64,
    out_before: u64,
    err_before: u64,
) -> Ended {
    let alloc = rt.alloc();
    let mut shelf = FailingShelf::new(three_files(rt, alloc), calls_before);
    let mut out = PieceSink::new(alloc, 1, out_before);
    let mut err = PieceSink::new(alloc, 1, err_before);
    let lists = strings(rt, alloc, &["l"]);
    let asked = check_options(false, 1_000);
    let answer = check_into(rt, alloc, &mut shelf, &lists, &mut out, &mut err, &asked);
    Ended {
        answer,
        out: out.bytes,
        err: err.bytes,
    }
}

// What is left of the check of three lines where call k of eight fails: three for the list, three for its first
// file, two for its second.
fn left_after(k: u64) -> (Tally, &'static [u8], &'static [u8]) {
    match k {
        1..=3 => (tally(0, 0, 1), b"", b"b3sum: l: cannot read\n"),
        4..=6 => (
            lines_tally(0, 1, 1, 1),
            b"x: FAILED (cannot read)\ny: FAILED\n",
            b"b3sum: line 3: short line\nb3sum: WARNING: 3 computed checksums did NOT match\n",
        ),
        7 | 8 => (
            lines_tally(1, 0, 1, 1),
            b"x: OK\ny: FAILED (cannot read)\n",
            THREE_COMPLAINTS,
        ),
        _ => (lines_tally(1, 1, 0, 1), THREE_VERDICTS, THREE_COMPLAINTS),
    }
}

#[test]
fn a_shelf_that_fails_at_each_call_in_turn(rt: HostRuntime) {
    for k in 1..12 {
        let ended = three_lines(&rt, k - 1, u64::MAX, u64::MAX);
        let (counts, out, err) = left_after(k);
        ended.assert(&rt, "three lines", Ok(counts), out, err);
    }
}

// The complaints come after the verdicts.
#[test]
fn a_sink_that_fails_at_each_byte_in_turn(rt: HostRuntime) {
    for taken in 0..THREE_VERDICTS.len() {
        let ended = three_lines(&rt, u64::MAX, taken as u64, u64::MAX);
        let fault = Err(RunFault::WriteFault);
        ended.assert(&rt, "the output", fault, &THREE_VERDICTS[..taken], b"");
    }
    for taken in 0..THREE_COMPLAINTS.len() {
        let ended = three_lines(&rt, u64::MAX, u64::MAX, taken as u64);
        let fault = Err(RunFault::WriteFault);
        ended.assert(
            &rt,
            "the errors",
            fault,
            THREE_VERDICTS,
            &THREE_COMPLAINTS[..taken],
        );
    }
    let ended = three_lines(&rt, u64::MAX, 16, 77);
    let counts = Ok(lines_tally(1, 1, 0, 1));
    ended.assert(&rt, "no fault", counts, THREE_VERDICTS, THREE_COMPLAINTS);
}
