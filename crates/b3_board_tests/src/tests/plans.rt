// Which cuttings and grains are taken.

use super::asserts::{assert_same, assert_same_for, assert_that};
use super::memory::{by_cutting, by_grain, plan_by_grain};
use super::{pattern, span};
use b3_board::{BoardFault, Plan, default_grain};
use b3_core::{Mode, Span};
use std::alloc::Global;
use std::fmt::Debug;
use std::process::Abort;

// A plan of a part of an input, whose chunks are numbered from 16,384.
fn cut_later<'a>(
    rt: &impl Abort,
    alloc: Global,
    input: &'a [u8],
    cutting: &[Span],
) -> Result<Plan<'a>, BoardFault> {
    assert_that(rt, input.len() <= 1 << 30);
    Plan::cut_at(alloc, input, Mode::hash(), 16384, cutting)
}

// The plan was refused for this fault: one of several, which a failure names by its case.
fn assert_refused<C: Debug + Drop>(
    rt: &impl Abort,
    case: C,
    made: Result<Plan<'_>, BoardFault>,
    fault: BoardFault,
) {
    assert_same_for(rt, case, made.err(), Some(fault));
}

// The fault has this number, and is shown as this text.
fn assert_fault(rt: &impl Abort, alloc: Global, fault: BoardFault, number: u8, text: &str) {
    let shown = fault.to_string(alloc).expect(rt, "memory");
    assert_same(rt, fault as u8, number);
    assert_same(rt, shown.as_str(), text);
}

#[test]
fn each_fault_has_its_number_and_text(rt: HostRuntime) {
    let table = [
        (
            BoardFault::BadGrain,
            1,
            "the grain is no power of two from 1 to 2^20",
        ),
        (
            BoardFault::BadCut,
            2,
            "the spans are no cutting of the input into subtrees",
        ),
        (
            BoardFault::TooLarge,
            3,
            "the input has more than 2^30 bytes",
        ),
        (
            BoardFault::TooManySpans,
            4,
            "there are more than 1,024 spans",
        ),
        (BoardFault::Memory, 5, "out of memory"),
        (
            BoardFault::BadWorkers,
            8,
            "there are no workers, or more than 64",
        ),
    ];
    for (fault, number, text) in table {
        assert_fault(&rt, rt.alloc(), fault, number, text);
    }
}

#[test]
fn cuttings_that_are_taken_and_refused(rt: HostRuntime) {
    let alloc = rt.alloc();
    let input = pattern(&rt, alloc, 6 * 1024);
    let taken = cut_later(&rt, alloc, &input, &[span(0, 4), span(4, 2)]).expect(&rt, "a plan");
    assert_same(
        &rt,
        (taken.first(), taken.len(), taken.span(2)),
        (16384, 2, None),
    );
    let between = cut_later(&rt, alloc, &input, &[span(0, 2), span(2, 4)]);
    assert_refused(&rt, "later", between, BoardFault::BadCut);
    let refused: [&[Span]; 7] = [
        &[span(0, 2), span(2, 4)],
        &[span(0, 4)],
        &[],
        &[span(4, 2)],
        &[span(0, 4), span(0, 4), span(4, 2)],
        &[span(0, 4), span(4, 0), span(4, 2)],
        &[span(0, 4), span(4, 2), span(6, 1)],
    ];
    for spans in refused {
        let made = by_cutting(alloc, &input, spans);
        assert_refused(&rt, spans, made, BoardFault::BadCut);
    }
}

#[test]
fn grains_that_are_taken_and_refused(rt: HostRuntime) {
    let alloc = rt.alloc();
    let input = pattern(&rt, alloc, 1024 * 1024 + 1);
    for (grain, fault) in [
        (1u64, BoardFault::TooManySpans),
        (0, BoardFault::BadGrain),
        (3, BoardFault::BadGrain),
        (1 << 21, BoardFault::BadGrain),
    ] {
        assert_refused(&rt, grain, by_grain(alloc, &input, grain), fault);
    }
    let plan = plan_by_grain(&rt, alloc, &input, 1024);
    assert_same(
        &rt,
        (plan.span(0), plan.span(1), plan.span(2)),
        (Some(span(0, 1024)), Some(span(1024, 1)), None),
    );
    let none = plan_by_grain(&rt, alloc, &[], 1);
    assert_same(&rt, (none.len(), none.span(0)), (1, Some(span(0, 1))));
}

#[test]
fn default_grains(rt: HostRuntime) {
    for (n, grain, spans) in [
        (1u64, 16u64, 1u64),
        (1 << 14, 16, 1024),
        ((1 << 14) + 1, 32, 513),
        (1 << 20, 1024, 1024),
    ] {
        assert_that(&rt, 1 <= n && n <= 1 << 20);
        let told = default_grain(n);
        assert_same_for(&rt, n, (told, n.div_ceil(grain)), (grain, spans));
    }
    let input = vec![in rt.alloc(); 0; (1 << 24) + 1].expect(&rt, "memory");
    let plan = plan_by_grain(&rt, rt.alloc(), &input, default_grain((1 << 14) + 1));
    assert_same(
        &rt,
        (plan.len(), plan.span(512)),
        (513, Some(span(1 << 14, 1))),
    );
}
