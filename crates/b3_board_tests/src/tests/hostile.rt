// A worker that deposits what it should not, beside an honest one.

ghost use Rattle.std.specs.Prelude.{◌≡◌, length};
ghost use Rattle.b3_board.specs.Plans.{IsPlanOf};
ghost use Rattle.b3_claims.specs.Seats.{IsSeatOf};

use super::asserts::{assert_same, assert_that};
use super::memory::plan_by_grain;
use super::rendezvous::Yielding;
use super::{assert_root, counts, new_board, pattern, span, sweep};
use b3_board::{Claims, Done, Ended, InputLedger, MemoryBoard, Plan, Refused, Share, worker};
use b3_core::{Mode, Span};
use std::alloc::Global;
use std::marker::{Brand, Send, Sync};
use std::process::Abort;
use std::sync::ledger::Blank;
use std::sync::{Mutex, Wait};
use std::thread;
use std::thread::Threads;

fn is_open<'a, L: InputLedger>(board: &MemoryBoard<'a, L>, span: Span) -> bool {
    for i in 0..board.open_spans() {
        if board.open_span(i) == Some(span) {
            return true;
        }
    }
    false
}

// A deposit, of which its caller compares what it did.
fn put<'a, L: InputLedger>(
    board: &mut MemoryBoard<'a, L>,
    share: &mut Share<L>,
    done: Done<'a>,
) -> Result<(), Refused<'a>> {
    board.deposit(done, share)
}

// So many chunks were deposited, and are no longer waiting.
fn assert_taken<'a, L: InputLedger>(
    rt: &impl Abort,
    board: &MemoryBoard<'a, L>,
    share: &Share<L>,
    before: (u64, u64, u64),
    count: u64,
) {
    let (deposited, waiting, chunks) = before;
    let want = (
        deposited.wrapping_add(count),
        waiting.wrapping_sub(count),
        chunks.wrapping_add(count),
    );
    assert_same(rt, counts(board, share), want);
}

// Deposits what is done. It is taken where its span is open and its plan is the board's; else it comes back by
// the name of the first of both that does not hold, and neither board nor share has changed.
fn deposit_checked<'a, L: InputLedger>(
    rt: &impl Abort,
    board: &mut MemoryBoard<'a, L>,
    share: &mut Share<L>,
    done: Done<'a>,
    is_own: bool,
) {
    let (span, node) = (done.span(), done.node());
    let is_open = is_open(board, span);
    let before = counts(board, share);
    let back = match put(board, share, done) {
        Ok(()) => {
            assert_that(rt, is_open && is_own);
            assert_taken(rt, board, share, before, span.count);
            return;
        }
        Err(Refused::NotOpen(back)) => {
            assert_that(rt, !is_open);
            back
        }
        Err(Refused::OtherBytes(back)) => {
            assert_that(rt, is_open && !is_own);
            back
        }
    };
    assert_same(rt, (back.span(), back.node()), (span, node));
    assert_same(rt, counts(board, share), before);
}

// Deposits span `i` of the plan twice, where the plan has so many.
fn deposit_twice<'a, L: InputLedger, R: Wait + Abort>(
    rt: &R,
    board: &Mutex<MemoryBoard<'a, L>>,
    share: &mut Share<L>,
    plan: &Plan<'a>,
    i: usize,
) {
    for _ in 0..2usize {
        let Some(job) = plan.job(i) else {
            return;
        };
        let done = job.work();
        let mut held = board.lock(rt);
        let is_own = held.is_over(plan);
        deposit_checked(rt, &mut held, share, done, is_own);
    }
}

// Deposits span `i` of each of these plans twice.
fn deposit_strangers<'a, L: InputLedger, R: Wait + Abort>(
    rt: &R,
    board: &Mutex<MemoryBoard<'a, L>>,
    share: &mut Share<L>,
    strangers: &[Plan<'a>],
    i: usize,
) {
    for stranger in strangers {
        deposit_twice(rt, board, share, stranger, i);
    }
}

// Deposits what the board's own plan gives, and plans of strangers.
fn deposit_all<'a, L: InputLedger, R: Wait + Abort>(
    rt: &R,
    board: &Mutex<MemoryBoard<'a, L>>,
    share: &mut Share<L>,
    plan: &Plan<'a>,
    strangers: &[Plan<'a>],
) {
    for i in 0..plan.len() {
        deposit_strangers(rt, board, share, strangers, i);
        deposit_twice(rt, board, share, plan, i);
    }
}

// Runs the two beside one another, and gives what both hold after it.
fn work_beside<'a, L: InputLedger + Send + Sync, R: Threads + Wait + Abort + Sync>(
    rt: &R,
    alloc: Global,
    board: &Mutex<MemoryBoard<'a, L>>,
    share: Share<L>,
    mut theirs: Share<L>,
    plan: &Plan<'a>,
    strangers: &[Plan<'a>],
) -> (Ended<L>, Share<L>) {
    let (claims, seat) = Claims::new(alloc, plan.len()).expect(rt, "claims");
    let (ended, _) = thread::join(
        rt,
        || -> Ended<L>
            requires { (claims.count ≡ length plan.now.spans) × IsSeatOf claims seat }
        { worker(rt, plan, board, &claims, seat, share, 0, &Yielding) },
        || deposit_all(rt, board, &mut theirs, plan, strangers),
    );
    (ended, theirs)
}

// The worker claimed each span, the two deposited all that the board has, and nothing is left to sweep.
fn assert_all_done<'a, L: InputLedger>(
    rt: &impl Abort,
    plan: &Plan<'a>,
    mut board: MemoryBoard<'a, L>,
    ended: &Ended<L>,
    mut theirs: Share<L>,
) {
    assert_same(rt, ended.seat.claimed().len(), plan.len());
    assert_same(
        rt,
        ended.share.chunks().wrapping_add(theirs.chunks()),
        board.deposited(),
    );
    assert_same(rt, sweep(&mut board, &mut theirs), 0);
    assert_root(rt, &board, plan.input());
}

fn beside_on<'a, L: InputLedger + Send + Sync, R: Threads + Wait + Abort + Sync>(
    rt: &R,
    alloc: Global,
    plan: &Plan<'a>,
    strangers: &[Plan<'a>],
    blank: Blank,
)
    requires name { blank.name ≡ L.name }
    requires parts { blank.parts ≡ L.parts }
    requires whole { L.parts ≡ 128 }
    requires own { IsPlanOf L.input L.mode L.first plan.now }
{
    let (board, mut share) = new_board::<L>(rt, alloc, plan, blank);
    assert_that(rt, share.parts() == 128);
    let theirs = share.split();
    let board = Mutex::new(board);
    let (ended, theirs) = work_beside(rt, alloc, &board, share, theirs, plan, strangers);
    assert_all_done(rt, plan, board.into_inner(), &ended, theirs);
}

fn beside<'a, R: Threads + Wait + Abort + Sync>(
    rt: &R,
    alloc: Global,
    plan: &Plan<'a>,
    strangers: &[Plan<'a>],
) {
    beside_on::<Brand, R>(rt, alloc, plan, strangers, Blank::new(128));
}

// Plans over other bytes, in another mode, at another first chunk, and by another cutting.
fn strangers_of<'a>(
    rt: &impl Abort,
    alloc: Global,
    input: &'a [u8],
    zeros: &'a [u8],
) -> [Plan<'a>; 4] {
    assert_that(rt, input.len() <= 1 << 20);
    [
        plan_by_grain(rt, alloc, zeros, 1),
        Plan::new(alloc, input, Mode::keyed(&[7; 32]), 1).expect(rt, "a plan"),
        Plan::at(alloc, input, Mode::hash(), 16, 1).expect(rt, "a plan"),
        plan_by_grain(rt, alloc, input, 2),
    ]
}

// The two run some times, so that each gets ahead of the other now and then.
#[test]
fn an_honest_worker_beside_a_hostile_one(rt: HostRuntime) {
    let alloc = rt.alloc();
    let input = pattern(&rt, alloc, 16 * 1024);
    let zeros = [0; 16 * 1024];
    let plan = plan_by_grain(&rt, alloc, &input, 1);
    let strangers = strangers_of(&rt, alloc, &input, &zeros);
    for _ in 0..20usize {
        beside(&rt, alloc, &plan, &strangers);
    }
}
