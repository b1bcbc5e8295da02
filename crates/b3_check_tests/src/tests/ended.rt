// Runs, and what they came to. The tests call the engines through here alone, so that none has their contracts among
// the facts from which it is proved.

ghost use Rattle.std.specs.Prelude.{◌≡◌, ◌^◌, ◌<◌, ◌≤◌};

use super::asserts::{assert_same_for, assert_that};
use crate::tests::owned::{bytes_of, strings};
use b3_board::{Gate, OpenGate};
use b3_check::{
    CheckOptions, Form, MemorySink, Operands, RunFault, Shelf, Sink, SumOptions, Tally, run_check,
    run_sum,
};
use std::alloc::Global;
use std::process::Abort;
use std::sync::Wait;
use std::thread::Threads;

/// What a run answered, and what it wrote.
#[derive(Drop)]
pub struct Ended {
    pub answer: Result<Tally, RunFault>,
    pub out: Vec<u8>,
    pub err: Vec<u8>,
}

impl Ended {
    /// The run of this row answered this, and wrote just these texts.
    pub fn assert(
        self,
        rt: &impl Abort,
        row: &str,
        answer: Result<Tally, RunFault>,
        out: &[u8],
        err: &[u8],
    ) {
        assert_same_for(rt, row, self.answer, answer);
        assert_same_for(rt, row, self.out.as_slice(), out);
        assert_same_for(rt, row, self.err.as_slice(), err);
    }
}

fn ended_of(
    rt: &impl Abort,
    alloc: Global,
    answer: Result<Tally, RunFault>,
    out: &MemorySink,
    err: &MemorySink,
) -> Ended {
    Ended {
        answer,
        out: bytes_of(rt, alloc, out.bytes()),
        err: bytes_of(rt, alloc, err.bytes()),
    }
}

// The bounds that all tests keep to.
fn assert_bounds(rt: &impl Abort, workers: u32, turns: u64, largest: u64)
    ensures workers { (1 ≤ workers) × (workers ≤ 64) }
    ensures turns { (1 ≤ turns) × (turns ≤ 2 ^ 40) }
    ensures largest { largest ≤ 2 ^ 30 }
{
    assert_that(rt, 1 <= workers && workers <= 64);
    assert_that(rt, 1 <= turns && turns <= 1_000_000_000);
    assert_that(rt, largest <= 1_000_000);
}

// Sums names into these sinks, behind a gate.
fn sum_into_behind<
    R: Abort + Threads + Wait + Sync,
    S: Shelf + Send + Sync,
    O: Sink,
    E: Sink,
    G: Gate + Sync,
>(
    rt: &R,
    alloc: Global,
    shelf: &mut S,
    names: &[String],
    out: &mut O,
    err: &mut E,
    options: &SumOptions,
    gate: &G,
) -> Result<Tally, RunFault>
    requires shelf { S.failures shelf.old < 2 ^ 63 }
    requires out { O.failures out.old < 2 ^ 63 }
    requires err { E.failures err.old < 2 ^ 63 }
{
    assert_that(rt, names.len() <= 10_000);
    assert_that(rt, !(options.form == Form::Raw && names.len() != 1));
    assert_that(rt, options.length <= 1_048_576 && options.seek <= 1_000);
    assert_bounds(rt, options.workers, options.turns, options.largest);
    let operands = Operands::given(names);
    run_sum(rt, alloc, shelf, operands, out, err, options, gate)
}

/// Sums names into these sinks.
pub fn sum_into<R: Abort + Threads + Wait + Sync, S: Shelf + Send + Sync, O: Sink, E: Sink>(
    rt: &R,
    alloc: Global,
    shelf: &mut S,
    names: &[String],
    out: &mut O,
    err: &mut E,
    options: &SumOptions,
) -> Result<Tally, RunFault>
    requires shelf { S.failures shelf.old < 2 ^ 63 }
    requires out { O.failures out.old < 2 ^ 63 }
    requires err { E.failures err.old < 2 ^ 63 }
{
    sum_into_behind(rt, alloc, shelf, names, out, err, options, &OpenGate)
}

/// Sums names of a shelf, which the caller owns.
pub fn sum_owned<R: Abort + Threads + Wait + Sync, S: Shelf + Send + Sync>(
    rt: &R,
    alloc: Global,
    shelf: &mut S,
    names: &[String],
    options: &SumOptions,
) -> Ended
    requires { S.failures shelf.old < 2 ^ 63 }
{
    let mut out = MemorySink::new(alloc);
    let mut err = MemorySink::new(alloc);
    let answer = sum_into(rt, alloc, shelf, names, &mut out, &mut err, options);
    ended_of(rt, alloc, answer, &out, &err)
}

/// Sums names of a shelf.
pub fn sum<R: Abort + Threads + Wait + Sync, S: Shelf + Send + Sync>(
    rt: &R,
    alloc: Global,
    shelf: &mut S,
    names: &[&str],
    options: &SumOptions,
) -> Ended
    requires { S.failures shelf.old < 2 ^ 63 }
{
    sum_owned(rt, alloc, shelf, &strings(rt, alloc, names), options)
}

/// Sums a name of a shelf behind a gate.
pub fn sum_behind<R: Abort + Threads + Wait + Sync, S: Shelf + Send + Sync, G: Gate + Sync>(
    rt: &R,
    alloc: Global,
    shelf: &mut S,
    name: &str,
    options: &SumOptions,
    gate: &G,
) -> Ended
    requires { S.failures shelf.old < 2 ^ 63 }
{
    let names = strings(rt, alloc, &[name]);
    let mut out = MemorySink::new(alloc);
    let mut err = MemorySink::new(alloc);
    let answer = sum_into_behind(rt, alloc, shelf, &names, &mut out, &mut err, options, gate);
    ended_of(rt, alloc, answer, &out, &err)
}

// Checks lists, and writes into these sinks, behind a gate.
fn check_into_behind<
    R: Abort + Threads + Wait + Sync,
    S: Shelf + Send + Sync,
    O: Sink,
    E: Sink,
    G: Gate + Sync,
>(
    rt: &R,
    alloc: Global,
    shelf: &mut S,
    lists: &[String],
    out: &mut O,
    err: &mut E,
    options: &CheckOptions,
    gate: &G,
) -> Result<Tally, RunFault>
    requires shelf { S.failures shelf.old < 2 ^ 63 }
    requires out { O.failures out.old < 2 ^ 63 }
    requires err { E.failures err.old < 2 ^ 63 }
{
    assert_that(rt, lists.len() <= 10_000);
    assert_bounds(rt, options.workers, options.turns, options.largest);
    let operands = Operands::given(lists);
    run_check(rt, alloc, shelf, operands, out, err, options, gate)
}

/// Checks lists, and writes into these sinks.
pub fn check_into<R: Abort + Threads + Wait + Sync, S: Shelf + Send + Sync, O: Sink, E: Sink>(
    rt: &R,
    alloc: Global,
    shelf: &mut S,
    lists: &[String],
    out: &mut O,
    err: &mut E,
    options: &CheckOptions,
) -> Result<Tally, RunFault>
    requires shelf { S.failures shelf.old < 2 ^ 63 }
    requires out { O.failures out.old < 2 ^ 63 }
    requires err { E.failures err.old < 2 ^ 63 }
{
    check_into_behind(rt, alloc, shelf, lists, out, err, options, &OpenGate)
}

/// Checks lists of a shelf.
pub fn check<R: Abort + Threads + Wait + Sync, S: Shelf + Send + Sync>(
    rt: &R,
    alloc: Global,
    shelf: &mut S,
    lists: &[&str],
    options: &CheckOptions,
) -> Ended
    requires { S.failures shelf.old < 2 ^ 63 }
{
    let lists = strings(rt, alloc, lists);
    let mut out = MemorySink::new(alloc);
    let mut err = MemorySink::new(alloc);
    let answer = check_into(rt, alloc, shelf, &lists, &mut out, &mut err, options);
    ended_of(rt, alloc, answer, &out, &err)
}

/// Checks the list `l` of a shelf behind a gate.
pub fn check_behind<R: Abort + Threads + Wait + Sync, S: Shelf + Send + Sync, G: Gate + Sync>(
    rt: &R,
    alloc: Global,
    shelf: &mut S,
    options: &CheckOptions,
    gate: &G,
) -> Ended
    requires { S.failures shelf.old < 2 ^ 63 }
{
    let lists = strings(rt, alloc, &["l"]);
    let mut out = MemorySink::new(alloc);
    let mut err = MemorySink::new(alloc);
    let answer = check_into_behind(rt, alloc, shelf, &lists, &mut out, &mut err, options, gate);
    ended_of(rt, alloc, answer, &out, &err)
}
