// Devices in memory, and runs over them that are refused memory.

ghost use Rattle.std.specs.Prelude.{◌≡◌, ◌^◌, ◌<◌, ◌≤◌};

use super::asserts::{assert_same, assert_same_for, assert_that, assert_that_for};
use crate::tests::checks::{THREE_COMPLAINTS, THREE_LINES, THREE_VERDICTS};
use crate::tests::ended::{check_into, sum_into};
use crate::tests::{check_options, lines_tally, options, tally};
use b3_check::{Answer, MemoryShelf, MemorySink, RunFault, Shelf, Tally, Verdict, judge};
use b3_lines::{Line, read_line};
use std::alloc::{AllocError, Global};
use std::process::Abort;
use std::test::Fail;

// A shelf in memory, and how often it was asked for what may fail.
#[derive(Drop)]
struct Asked {
    shelf: MemoryShelf,
    calls: u64,
    ghost counted: { ⟦<MemoryShelf as Shelf>⟧.failures shelf ≤ calls },
}

impl Asked {
    // A shelf with no file.
    fn new(alloc: Global) -> Asked {
        Asked {
            shelf: MemoryShelf::new(alloc),
            calls: 0,
        }
    }

    fn begin(&mut self, rt: &impl Abort, name: &str, is_there: bool) {
        assert_that(rt, self.calls < 1_000);
        self.calls += 1;
        assert_same_for(rt, name, self.shelf.begin(name).is_ok(), is_there);
    }

    fn read(&mut self, rt: &impl Abort, most: usize, bytes: &[u8]) {
        let mut buffer = [0; 8];
        assert_that(rt, 1 <= most && most <= 8 && self.calls < 1_000);
        self.calls += 1;
        assert_same(rt, self.shelf.read(&mut buffer[..most]), Ok(bytes.len()));
        assert_that(rt, buffer.starts_with(bytes));
    }
}

// The lines of the files `e`, which is empty, and `x`, which has one byte 00.
const TWO_LINES: &[u8] = b"af1349b9f5f9a1a6a0404dea36dcc9499bcb25c9adc112b7cc9a93cae41f3262  e
2d3adedff11b61f14c886e35afa036736dcd87a74d27b5c1510225d0f592e213  x
";

// Whether the next growth is granted.
fn is_granted(alloc: Global) -> bool {
    String::from_str(alloc, "x").is_ok()
}

// Each growth may be refused: what is asserted holds all the same.
#[test]
fn a_refused_put_leaves_the_map_as_it_was(rt: HostRuntime) {
    let mut asked = Asked::new(rt.alloc());
    let is_put = asked.shelf.put("-", b"old").is_ok();
    let is_other_put = asked.shelf.put("other", b"other").is_ok();
    let is_replaced = asked.shelf.put("-", b"new").is_ok();
    asked.read(&rt, 8, b"");
    asked.begin(&rt, "other", is_other_put);
    asked.begin(&rt, "-", is_put || is_replaced);
    if is_put || is_replaced {
        asked.read(&rt, 8, if is_replaced { b"new" } else { b"old" });
    }
    assert_that_for(&rt, "refused after the last call", is_granted(rt.alloc()));
}

// A text, for which memory is asked again where it was refused.
fn text_of(alloc: Global, text: &str) -> Result<String, AllocError> {
    match String::from_str(alloc, text) {
        Ok(text) => Ok(text),
        Err(_) => String::from_str(alloc, text),
    }
}

// Puts a file on the shelf, likewise.
fn put(shelf: &mut MemoryShelf, name: &str, content: &[u8]) -> Result<(), AllocError>
    ensures { ⟦<MemoryShelf as Shelf>⟧.failures shelf.new ≡ ⟦<MemoryShelf as Shelf>⟧.failures shelf.old }
{
    if shelf.put(name, content).is_ok() {
        return Ok(());
    }
    shelf.put(name, content)
}

// Compares a run that may have been refused memory with one that was not: it came to the same end, or to a fault
// after beginnings of the same texts.
fn compare_refused(
    rt: &impl Abort,
    answer: Result<Tally, RunFault>,
    whole: Tally,
    out: (&[u8], &[u8]),
    err: (&[u8], &[u8]),
) {
    match answer {
        Ok(given) => {
            assert_same(rt, given, whole);
            assert_same(rt, out.0, out.1);
            assert_same(rt, err.0, err.1);
        }
        Err(fault) => {
            assert_that(rt, matches!(fault, RunFault::Memory | RunFault::WriteFault));
            assert_that(rt, out.1.starts_with(out.0));
            assert_that(rt, err.1.starts_with(err.0));
        }
    }
}

#[test]
fn refused_memory_of_a_sum_of_two_files(rt: HostRuntime) -> Result<(), Fail> {
    let alloc = rt.alloc();
    let mut shelf = MemoryShelf::new(alloc);
    put(&mut shelf, "e", b"")?;
    put(&mut shelf, "x", b"\0")?;
    let names = [text_of(alloc, "e")?, text_of(alloc, "x")?];
    let mut out = MemorySink::new(alloc);
    let mut err = MemorySink::new(alloc);
    let asked = options(10, 0);
    let answer = sum_into(&rt, alloc, &mut shelf, &names, &mut out, &mut err, &asked);
    compare_refused(
        &rt,
        answer,
        tally(2, 0, 0),
        (out.bytes(), TWO_LINES),
        (err.bytes(), b""),
    );
    assert_that_for(&rt, "refused after the last call", is_granted(alloc));
    Ok(())
}

#[test]
fn refused_memory_of_a_check_of_three_lines(rt: HostRuntime) -> Result<(), Fail> {
    let alloc = rt.alloc();
    let mut shelf = MemoryShelf::new(alloc);
    put(&mut shelf, "l", THREE_LINES)?;
    put(&mut shelf, "x", b"\0")?;
    put(&mut shelf, "y", b"")?;
    let lists = [text_of(alloc, "l")?];
    let mut out = MemorySink::new(alloc);
    let mut err = MemorySink::new(alloc);
    let asked = check_options(false, 1_000);
    let answer = check_into(&rt, alloc, &mut shelf, &lists, &mut out, &mut err, &asked);
    compare_refused(
        &rt,
        answer,
        lines_tally(1, 1, 0, 1),
        (out.bytes(), THREE_VERDICTS),
        (err.bytes(), THREE_COMPLAINTS),
    );
    assert_that_for(&rt, "refused after the last call", is_granted(alloc));
    Ok(())
}

// The calls of the devices that are said to take no memory, of a shelf with the file `x`.
fn device_calls(rt: &impl Abort, alloc: Global, shelf: &mut MemoryShelf)
    requires { ⟦<MemoryShelf as Shelf>⟧.failures shelf.old < 2 ^ 63 }
{
    let mut buffer = [1; 2];
    assert_same(rt, shelf.begin("x"), Ok(()));
    assert_same(rt, shelf.read(&mut buffer), Ok(1));
    assert_same(rt, shelf.read(&mut buffer), Ok(0));
    assert_that(rt, shelf.begin("none").is_err());
    assert_that(rt, MemoryShelf::new(alloc).begin("x").is_err());
    assert_that(rt, MemorySink::new(alloc).bytes().is_empty());
}

// The verdict of a line, a status and a fault's text, which are said to take none.
fn other_calls(rt: &impl Abort, line: &Line) {
    assert_same(rt, judge(line, &Answer::Digest(line.digest)), Verdict::Good);
    assert_same(rt, judge(line, &Answer::CannotRead), Verdict::Unreadable);
    assert_same(rt, tally(0, 0, 1).status(), 1);
    assert_same(rt, RunFault::Memory.text(), "b3sum: out of memory");
}

// Puts a file on a shelf and reads a line, then perhaps makes these calls.
fn growths(rt: &impl Abort, alloc: Global, with_calls: bool) -> Result<(), Fail> {
    let mut shelf = MemoryShelf::new(alloc);
    shelf.put("x", b"\0")?;
    let text = b"af1349b9f5f9a1a6a0404dea36dcc9499bcb25c9adc112b7cc9a93cae41f3262  x";
    let line = read_line(alloc, text)?;
    if with_calls {
        device_calls(rt, alloc, &mut shelf);
        other_calls(rt, &line);
    }
    let _last = String::from_str(alloc, "x")?;
    Ok(())
}

// The two tests fail where `make refused` refuses a growth of theirs, up to the last one: they have as many growths
// only if none of the calls takes memory.
#[test]
fn growths_without_calls(rt: HostRuntime) -> Result<(), Fail> {
    growths(&rt, rt.alloc(), false)
}

#[test]
fn growths_with_calls(rt: HostRuntime) -> Result<(), Fail> {
    growths(&rt, rt.alloc(), true)
}
