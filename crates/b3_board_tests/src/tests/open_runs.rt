// Runs behind gates that wait.

use super::asserts::{assert_same, assert_that, assert_that_for};
use super::memory::{plan_by_cutting, plan_by_grain};
use super::rendezvous::{AllAtOnce, TURNS};
use super::workers::{assert_run, report_of};
use super::{pattern, span};
use b3_board::{Gate, Plan};
use b3_core::{CHUNK_LEN, Mode, top};
use std::alloc::Global;
use std::process::Abort;
use std::sync::Wait;
use std::sync::atomic::{AtomicBool, Ordering};
use std::thread;
use std::thread::Threads;

// How many bytes of input each worker of these runs has.
const WORK_LEN: usize = 128 * CHUNK_LEN;

// As many workers as are asked for are between their claim and the lock at the same time.
fn assert_all_at_once<R: Threads + Wait + Abort + Sync>(
    rt: &R,
    alloc: Global,
    plan: &Plan,
    workers: u32,
) {
    let gate = AllAtOnce::new(workers);
    assert_run(rt, alloc, plan, workers, &gate);
    assert_that_for(rt, workers, gate.workers.is_complete());
    assert_same(rt, gate.workers.arrived().count_ones(), workers);
}

#[test]
fn all_workers_at_once(rt: HostRuntime) {
    let input = pattern(&rt, rt.alloc(), 64 * WORK_LEN);
    for workers in [2u32, 3, 4, 64] {
        let part = &input[..workers as usize * WORK_LEN];
        let plan = plan_by_grain(&rt, rt.alloc(), part, 64);
        assert_same(&rt, plan.input(), part);
        assert_all_at_once(&rt, rt.alloc(), &plan, workers);
    }
}

// The gate is told the worker's number and then the span's: two workers over eight spans.
#[test]
fn numbers_of_workers_and_of_spans(rt: HostRuntime) {
    let input = pattern(&rt, rt.alloc(), 2 * WORK_LEN);
    let plan = plan_by_grain(&rt, rt.alloc(), &input, 32);
    assert_same(&rt, plan.len(), 8);
    let gate = AllAtOnce::new(2);
    assert_run(&rt, rt.alloc(), &plan, 2, &gate);
    assert_same(
        &rt,
        (gate.workers.arrived(), gate.spans(), gate.calls()),
        (0b11, 0xff, 8),
    );
}

// Over a long span, and two short ones: whether the worker of the second span came before that of the long one, and
// whether the long one was deposited soon after it came. The worker of the second span waits here. Once the other
// one has passed, it hashes as it waits, up to a quarter of the long span.
#[derive(Drop)]
struct BesideALongSpan<'a> {
    // as many bytes as a short span has
    short: &'a [u8],
    is_long_hashed: AtomicBool,
    is_long_deposited: AtomicBool,
    is_before: AtomicBool,
    is_soon: AtomicBool,
}

const LONG: u64 = 8192;

const SHORT: u64 = 16;

impl Gate for BesideALongSpan<'_> {
    fn pass(&self, _worker: usize, span: usize) {
        match span {
            0 => self.is_long_hashed.store(true, Ordering::SeqCst),
            1 => self.wait_beside(),
            _ => self.is_long_deposited.store(true, Ordering::SeqCst),
        }
    }
}

impl<'a> BesideALongSpan<'a> {
    fn new(short: &'a [u8]) -> BesideALongSpan<'a> {
        BesideALongSpan {
            short,
            is_long_hashed: AtomicBool::new(false),
            is_long_deposited: AtomicBool::new(false),
            is_before: AtomicBool::new(false),
            is_soon: AtomicBool::new(false),
        }
    }

    fn wait_beside(&self) {
        self.is_before.store(
            !self.is_long_hashed.load(Ordering::SeqCst),
            Ordering::SeqCst,
        );
        for _ in 0..TURNS {
            if self.is_long_hashed.load(Ordering::SeqCst) {
                break;
            }
            thread::yield_now();
        }
        for _ in 0..LONG / SHORT / 4 {
            if self.is_long_deposited.load(Ordering::SeqCst) {
                self.is_soon.store(true, Ordering::SeqCst);
                return;
            }
            let _node = top(&Mode::hash(), 0, self.short);
        }
    }
}

// Whether a short span was hashed beside the long one, which was soon deposited.
fn is_hashed_beside<R: Threads + Wait + Abort + Sync>(rt: &R, alloc: Global, plan: &Plan) -> bool {
    let part = [0; 16_384];
    let gate = BesideALongSpan::new(&part);
    report_of(rt, alloc, plan, 2, &gate);
    gate.is_before.load(Ordering::SeqCst) && gate.is_soon.load(Ordering::SeqCst)
}

// No span is hashed while the board is locked: in some of many runs a short span is hashed beside a long one, and
// the long one is deposited sooner than a quarter of it is hashed.
#[test]
fn no_span_is_hashed_under_the_lock(rt: HostRuntime) {
    let input = pattern(&rt, rt.alloc(), (LONG + 2 * SHORT) as usize * CHUNK_LEN);
    let cutting = [span(0, LONG), span(LONG, SHORT), span(LONG + SHORT, SHORT)];
    let plan = plan_by_cutting(&rt, rt.alloc(), &input, &cutting);
    let mut is_seen = false;
    for _ in 0..100usize {
        if is_seen {
            break;
        }
        is_seen = is_hashed_beside(&rt, rt.alloc(), &plan);
    }
    assert_that(&rt, is_seen);
}
