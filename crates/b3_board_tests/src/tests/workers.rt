// Runs of many workers.

use super::asserts::{assert_same, assert_that, assert_that_for};
use super::memory::{last_growth, plan_by_cutting, plan_by_grain};
use super::random::{Rng, cut_at_random};
use super::rendezvous::Yielding;
use super::{DIGEST_OF_0, assert_digest, pattern};
use b3_board::{BoardFault, Gate, OpenGate, Plan, Report, hash_parallel};
use b3_core::{Mode, chunks, top};
use std::alloc::Global;
use std::process::Abort;
use std::sync::Wait;
use std::test::Fail;
use std::thread::Threads;

// The sum of the workers' chunks.
fn sum_of(report: &Report) -> u64 {
    let mut sum = 0u64;
    for share in report.shares.iter() {
        sum = sum.wrapping_add(*share);
    }
    sum
}

// A run over a plan, of which its caller compares the report.
pub(super) fn run<R: Threads + Wait + Sync, G: Gate + Sync>(
    rt: &R,
    alloc: Global,
    plan: &Plan,
    workers: u32,
    gate: &G,
) -> Result<Report, BoardFault> {
    hash_parallel(rt, alloc, plan, workers, gate)
}

// The report of a run, where memory is not refused.
pub(super) fn report_of<R: Threads + Wait + Abort + Sync, G: Gate + Sync>(
    rt: &R,
    alloc: Global,
    plan: &Plan,
    workers: u32,
    gate: &G,
) -> Report {
    run(rt, alloc, plan, workers, gate).expect(rt, "a report")
}

// The root is `top` of the bytes from a first chunk on, kept by a board. Each of the spans was claimed once, each
// worker has a number, and all chunks were deposited: none was left to the sweep.
pub(super) fn assert_report(
    rt: &impl Abort,
    report: &Report,
    bytes: &[u8],
    first: u64,
    spans: usize,
    workers: u32,
) {
    assert_that(rt, bytes.len() <= 1 << 30 && first <= 1 << 20);
    assert_that(rt, report.root.kept());
    assert_same(rt, report.root.node(), top(&Mode::hash(), first, bytes));
    assert_same(rt, report.claimed.len(), spans);
    for i in 0..report.claimed.len() {
        assert_that_for(rt, i, report.claimed.contains(&(i as u32)));
    }
    assert_same(rt, report.shares.len(), workers as usize);
    assert_same(
        rt,
        (sum_of(report), report.swept),
        (chunks(bytes.len() as u64), 0),
    );
}

// A run over a plan from the first chunk on gives such a report.
pub(super) fn assert_run<R: Threads + Wait + Abort + Sync, G: Gate + Sync>(
    rt: &R,
    alloc: Global,
    plan: &Plan,
    workers: u32,
    gate: &G,
) {
    let report = report_of(rt, alloc, plan, workers, gate);
    assert_report(rt, &report, plan.input(), 0, plan.len(), workers);
}

#[test]
fn nothing_and_64_workers(rt: HostRuntime) {
    let plan = plan_by_grain(&rt, rt.alloc(), &[], 1);
    let report = report_of(&rt, rt.alloc(), &plan, 64, &OpenGate);
    assert_report(&rt, &report, plan.input(), 0, 1, 64);
    assert_same(&rt, report.claimed.as_slice(), [0u32].as_slice());
    assert_digest(&rt, &report.root, &DIGEST_OF_0);
    for workers in [0u32, 65] {
        assert_same(
            &rt,
            run(&rt, rt.alloc(), &plan, workers, &OpenGate).err(),
            Some(BoardFault::BadWorkers),
        );
    }
}

#[test]
fn random_cuttings_and_workers(rt: HostRuntime) {
    let alloc = rt.alloc();
    let input = pattern(&rt, alloc, 100 * 1024);
    let mut rng = Rng { state: 12 };
    for _ in 0..100usize {
        let greatest = 1 + rng.below(100 * 1024);
        let len = rng.below(greatest) as usize;
        assert_that(&rt, len <= input.len());
        let part = &input[..len];
        let cutting = cut_at_random(&rt, alloc, &mut rng, chunks(len as u64), 8);
        let plan = plan_by_cutting(&rt, alloc, part, &cutting);
        for workers in [1u32, 2, 4, 64] {
            assert_run(&rt, alloc, &plan, workers, &OpenGate);
            assert_run(&rt, alloc, &plan, workers, &Yielding);
        }
    }
}

#[test]
fn two_workers_a_thousand_times(rt: HostRuntime) {
    let input = pattern(&rt, rt.alloc(), 64 * 1024);
    let plan = plan_by_grain(&rt, rt.alloc(), &input, 1);
    assert_same(&rt, (plan.input(), plan.len()), (input.as_slice(), 64));
    for _ in 0..1000usize {
        assert_run(&rt, rt.alloc(), &plan, 2, &Yielding);
    }
}

// How many of two runs of four workers ended with an answer: one that meets want of memory is made again.
fn answers_of_two<R: Threads + Wait + Abort + Sync>(rt: &R, alloc: Global) -> u32 {
    let input = [7; 20 * 1024];
    let mut answers = 0u32;
    for _ in 0..2usize {
        let Ok(plan) = Plan::new(alloc, &input, Mode::hash(), 1) else {
            continue;
        };
        match run(rt, alloc, &plan, 4, &Yielding) {
            Ok(report) => {
                assert_report(rt, &report, plan.input(), 0, plan.len(), 4);
                answers = answers.wrapping_add(1);
            }
            Err(fault) => assert_same(rt, fault, BoardFault::Memory),
        }
    }
    answers
}

#[test]
fn refused_memory_of_a_run(rt: HostRuntime) -> Result<(), Fail> {
    let alloc = rt.alloc();
    assert_that(&rt, answers_of_two(&rt, alloc) > 0);
    assert_that_for(
        &rt,
        "refused after the last call",
        last_growth(alloc).is_ok(),
    );
    Ok(())
}
