// A board over a small input, drawn by hand, and what boards keep.

ghost use Rattle.std.specs.Prelude.{◌≡◌, ◌+◌, vec_len};
ghost use Rattle.b3_board.specs.Plans.{IsPlanOf};

mod asserts;
mod claims;
mod hostile;
mod memory;
mod open_runs;
mod plans;
mod random;
mod rendezvous;
mod source;
mod workers;

use crate::tests::memory::plan_by_grain;
use asserts::{assert_same, assert_same_for, assert_that};
use b3_board::*;
use b3_core::{Mode, Node, Span, top};
use std::alloc::Global;
use std::marker::Brand;
use std::process::Abort;
use std::sync::ledger::{Blank, Ledger};

// The digest of no bytes, by the official test vectors.
const DIGEST_OF_0: [u8; 32] = [
    0xaf, 0x13, 0x49, 0xb9, 0xf5, 0xf9, 0xa1, 0xa6, 0xa0, 0x40, 0x4d, 0xea, 0x36, 0xdc, 0xc9, 0x49,
    0x9b, 0xcb, 0x25, 0xc9, 0xad, 0xc1, 0x12, 0xb7, 0xcc, 0x9a, 0x93, 0xca, 0xe4, 0x1f, 0x32, 0x62,
];

// Appends an item.
fn append<T: Drop>(rt: &impl Abort, list: &mut Vec<T>, item: T)
    ensures { vec_len list.new ≡ vec_len list.old + 1 }
{
    list.push(item).expect(rt, "memory");
}

// The bytes of these vectors: `i mod 251`.
fn pattern(rt: &impl Abort, alloc: Global, len: usize) -> Vec<u8>
    ensures { vec_len result ≡ len }
{
    let mut bytes = Vec::with_capacity(alloc, len).expect(rt, "memory");
    for i in 0..len {
        append(rt, &mut bytes, (i % 251) as u8);
    }
    bytes
}

fn span(first: u64, count: u64) -> Span {
    Span { first, count }
}

// The top of the whole input.
fn root_of(rt: &impl Abort, input: &[u8]) -> Node {
    assert_that(rt, input.len() <= 1 << 30);
    top(&Mode::hash(), 0, input)
}

// A new board, with a share of all parts.
fn open_board<'a, L: InputLedger>(
    alloc: Global,
    plan: &Plan<'a>,
    blank: Blank,
) -> Result<(MemoryBoard<'a, L>, Share<L>), BoardFault>
    requires name { blank.name ≡ L.name }
    requires parts { blank.parts ≡ L.parts }
    requires whole { L.parts ≡ 128 }
    requires own { IsPlanOf L.input L.mode L.first plan.now }
{
    MemoryBoard::<'a, L>::new(alloc, plan, blank)
}

// The same, where memory is not refused.
fn new_board<'a, L: InputLedger>(
    rt: &impl Abort,
    alloc: Global,
    plan: &Plan<'a>,
    blank: Blank,
) -> (MemoryBoard<'a, L>, Share<L>)
    requires name { blank.name ≡ L.name }
    requires parts { blank.parts ≡ L.parts }
    requires whole { L.parts ≡ 128 }
    requires own { IsPlanOf L.input L.mode L.first plan.now }
{
    open_board::<L>(alloc, plan, blank).expect(rt, "a board")
}

// Does the work of span `i`, and deposits it.
fn deposit<'a, L: InputLedger>(
    rt: &impl Abort,
    board: &mut MemoryBoard<'a, L>,
    share: &mut Share<L>,
    plan: &Plan<'a>,
    i: usize,
) -> Result<(), Refused<'a>> {
    let done = plan.job(i).expect(rt, "a job").work();
    board.deposit(done, share)
}

// Hashes what is open, and answers how many chunks that were.
fn sweep<'a, L: InputLedger>(board: &mut MemoryBoard<'a, L>, share: &mut Share<L>) -> u64 {
    board.sweep(share)
}

// The deposited chunks, those that are still to be deposited, and those of a share.
fn counts<'a, L: InputLedger>(board: &MemoryBoard<'a, L>, share: &Share<L>) -> (u64, u64, u64) {
    (board.deposited(), board.waiting(), share.chunks())
}

// The root is the top of the whole input, kept by the board.
fn assert_root<'a, L: InputLedger>(rt: &impl Abort, board: &MemoryBoard<'a, L>, input: &[u8]) {
    let root = board.root().expect(rt, "a root");
    assert_that(rt, root.kept());
    assert_same(rt, root.node(), root_of(rt, input));
}

// The first bytes of a root's output.
fn assert_digest(rt: &impl Abort, root: &Root, want: &[u8; 32]) {
    let block = root.node().block(0);
    let (digest, _) = block.split_at(32);
    assert_same(rt, digest, want.as_slice());
}

fn assert_pieces<'a, L: InputLedger>(
    rt: &impl Abort,
    board: &MemoryBoard<'a, L>,
    want: &[(u64, u64)],
) {
    for i in 0..want.len() {
        let (first, count) = want[i];
        assert_same_for(rt, i, board.piece(i), Some(span(first, count)));
    }
    assert_same(rt, board.piece(want.len()), None);
}

// What a board shows after each deposit: the span's number, the pieces, and the deposited and the waiting
// chunks.
type Step<'s> = (usize, &'s [(u64, u64)], u64, u64);

fn assert_step<'a, L: InputLedger>(
    rt: &impl Abort,
    board: &mut MemoryBoard<'a, L>,
    share: &mut Share<L>,
    plan: &Plan<'a>,
    step: &Step,
) {
    let (span, pieces, deposited, waiting) = *step;
    assert_that(rt, board.root().is_none());
    assert_that(rt, deposit(rt, board, share, plan, span).is_ok());
    assert_pieces(rt, board, pieces);
    assert_same(rt, counts(board, share), (deposited, waiting, deposited));
}

// Each step of a new board, to its root.
fn assert_steps<'a, L: InputLedger>(
    rt: &impl Abort,
    board: &mut MemoryBoard<'a, L>,
    share: &mut Share<L>,
    plan: &Plan<'a>,
    steps: &[Step],
) {
    assert_that(rt, board.is_over(plan) && board.deposited() == 0);
    assert_same(rt, board.open_spans(), plan.len());
    for step in steps {
        assert_step(rt, board, share, plan, step);
    }
    assert_root(rt, board, plan.input());
    assert_same(rt, board.open_span(0), None);
}

fn steps_on<'a, L: InputLedger>(
    rt: &impl Abort,
    alloc: Global,
    plan: &Plan<'a>,
    blank: Blank,
    steps: &[Step],
)
    requires name { blank.name ≡ L.name }
    requires parts { blank.parts ≡ L.parts }
    requires whole { L.parts ≡ 128 }
    requires own { IsPlanOf L.input L.mode L.first plan.now }
{
    let (mut board, mut share) = new_board::<L>(rt, alloc, plan, blank);
    assert_steps(rt, &mut board, &mut share, plan, steps);
}

fn steps(rt: &impl Abort, alloc: Global, plan: &Plan, steps: &[Step]) {
    steps_on::<Brand>(rt, alloc, plan, Blank::new(128), steps);
}

#[test]
fn five_chunks(rt: HostRuntime) {
    let input = pattern(&rt, rt.alloc(), 5 * 1024);
    let plan = plan_by_grain(&rt, rt.alloc(), &input, 1);
    let rows: [Step; 5] = [
        (4, &[(4, 1)], 1, 4),
        (2, &[(2, 1), (4, 1)], 2, 3),
        (3, &[(2, 2), (4, 1)], 3, 2),
        (0, &[(0, 1), (2, 2), (4, 1)], 4, 1),
        (1, &[(0, 5)], 5, 0),
    ];
    steps(&rt, rt.alloc(), &plan, &rows);
}

fn deposit_in<'a, L: InputLedger>(
    rt: &impl Abort,
    board: &mut MemoryBoard<'a, L>,
    share: &mut Share<L>,
    plan: &Plan<'a>,
    order: &[usize],
) {
    for i in order {
        assert_that(rt, deposit(rt, board, share, plan, *i).is_ok());
    }
}

// Deposits the spans of the plan in this order, and finds the top so many times.
fn order_on<'a, L: InputLedger>(
    rt: &impl Abort,
    alloc: Global,
    plan: &Plan<'a>,
    blank: Blank,
    order: &[usize],
    times: usize,
)
    requires name { blank.name ≡ L.name }
    requires parts { blank.parts ≡ L.parts }
    requires whole { L.parts ≡ 128 }
    requires own { IsPlanOf L.input L.mode L.first plan.now }
{
    let (mut board, mut share) = new_board::<L>(rt, alloc, plan, blank);
    deposit_in(rt, &mut board, &mut share, plan, order);
    assert_same(rt, share.chunks(), board.deposited());
    let want = root_of(rt, plan.input());
    for _ in 0..times {
        assert_same(rt, board.root().expect(rt, "a root").node(), want);
        assert_same(rt, sweep(&mut board, &mut share), 0);
    }
}

fn in_order(rt: &impl Abort, alloc: Global, plan: &Plan, order: &[usize], times: usize) {
    order_on::<Brand>(rt, alloc, plan, Blank::new(128), order, times);
}

// A body that hashed again would not come to the end.
#[test]
fn kept_nodes(rt: HostRuntime) {
    let input = pattern(&rt, rt.alloc(), 1 << 24);
    let plan = plan_by_grain(&rt, rt.alloc(), &input, 4096);
    in_order(&rt, rt.alloc(), &plan, &[2, 0, 3, 1], 1_000_000);
}
