// What is answered where a growth is refused.

ghost use Rattle.std.specs.Prelude.{◌≡◌, length};
ghost use Rattle.b3_board.specs.Plans.{IsPlanOf};
ghost use Rattle.b3_claims.specs.Seats.{IsSeatOf};

use super::asserts::{assert_same, assert_that, assert_that_for};
use super::{deposit, open_board, span, sweep};
use b3_board::{
    BoardFault, Claims, InputLedger, MemoryBoard, OpenGate, Plan, Seat, Share, default_grain,
    worker,
};
use b3_core::{Mode, Span};
use std::alloc::Global;
use std::marker::Brand;
use std::process::Abort;
use std::sync::ledger::{Blank, Ledger};
use std::sync::{Mutex, Wait};
use std::test::Fail;

/// The answer of a call, which is asked again where a growth was refused.
macro_rules! answered {
    ($call:expr) => {
        match $call {
            Err(BoardFault::Memory) => $call,
            answer => answer,
        }
    };
}

pub(super) fn by_grain<'a>(
    alloc: Global,
    input: &'a [u8],
    grain: u64,
) -> Result<Plan<'a>, BoardFault> {
    answered!(Plan::new(alloc, input, Mode::hash(), grain))
}

/// The plan, where memory is not refused.
pub(super) fn plan_by_grain<'a>(
    rt: &impl Abort,
    alloc: Global,
    input: &'a [u8],
    grain: u64,
) -> Plan<'a> {
    by_grain(alloc, input, grain).expect(rt, "a plan")
}

fn part_by_grain<'a>(
    alloc: Global,
    input: &'a [u8; 3000],
    grain: u64,
) -> Result<Plan<'a>, BoardFault> {
    answered!(Plan::at(alloc, input, Mode::hash(), 16384, grain))
}

pub(super) fn by_cutting<'a>(
    alloc: Global,
    input: &'a [u8],
    cutting: &[Span],
) -> Result<Plan<'a>, BoardFault> {
    answered!(Plan::cut(alloc, input, Mode::hash(), cutting))
}

/// The plan, where memory is not refused.
pub(super) fn plan_by_cutting<'a>(
    rt: &impl Abort,
    alloc: Global,
    input: &'a [u8],
    cutting: &[Span],
) -> Plan<'a> {
    by_cutting(alloc, input, cutting).expect(rt, "a plan")
}

fn part_by_cutting<'a>(
    alloc: Global,
    input: &'a [u8; 3000],
    cutting: &[Span],
) -> Result<Plan<'a>, BoardFault> {
    answered!(Plan::cut_at(alloc, input, Mode::hash(), 16384, cutting))
}

// The chunks that a new board of the plan leaves to its sweep.
fn swept_on<'a, L: InputLedger>(
    rt: &impl Abort,
    alloc: Global,
    plan: &Plan<'a>,
    blank: Blank,
) -> Result<u64, BoardFault>
    requires name { blank.name ≡ L.name }
    requires parts { blank.parts ≡ L.parts }
    requires whole { L.parts ≡ 128 }
    requires own { IsPlanOf L.input L.mode L.first plan.now }
{
    let (mut board, mut share) = open_board::<L>(alloc, plan, blank)?;
    assert_same(rt, board.open_spans(), plan.len());
    Ok(sweep(&mut board, &mut share))
}

fn swept(rt: &impl Abort, alloc: Global, plan: &Plan) -> Result<u64, BoardFault> {
    swept_on::<Brand>(rt, alloc, plan, Blank::new(128))
}

// A plan of three chunks has this first chunk and so many spans, the last of one chunk, and leaves all to the sweep.
fn assert_plan(
    rt: &impl Abort,
    alloc: Global,
    plan: &Plan,
    first: u64,
    len: usize,
) -> Result<(), BoardFault> {
    assert_same(rt, (plan.first(), plan.len()), (first, len));
    assert_same(rt, plan.span(len.saturating_sub(1)), Some(span(2, 1)));
    assert_same(rt, answered!(swept(rt, alloc, plan))?, 3);
    Ok(())
}

// The same of a plan that was made, or refused.
fn assert_made(
    rt: &impl Abort,
    alloc: Global,
    made: Result<Plan<'_>, BoardFault>,
    first: u64,
    len: usize,
) -> Result<(), BoardFault> {
    assert_plan(rt, alloc, &made?, first, len)
}

/// Each growth is refused in turn by `make refused`.
#[test]
fn refused_memory_is_answered(rt: HostRuntime) -> Result<(), Fail> {
    let alloc = rt.alloc();
    let input = [7u8; 3000];
    assert_made(&rt, alloc, by_grain(alloc, &input, 1), 0, 3)?;
    let cutting = [span(0, 2), span(2, 1)];
    assert_made(&rt, alloc, by_cutting(alloc, &input, &cutting), 0, 2)?;
    assert_made(&rt, alloc, part_by_grain(alloc, &input, 2), 16384, 2)?;
    assert_made(
        &rt,
        alloc,
        part_by_cutting(alloc, &input, &cutting),
        16384,
        2,
    )?;
    assert_same(
        &rt,
        by_grain(alloc, &input, 3).err(),
        Some(BoardFault::BadGrain),
    );
    assert_that_for(
        &rt,
        "refused after the last call",
        last_growth(alloc).is_ok(),
    );
    Ok(())
}

// One growth, after all others.
pub(super) fn last_growth(alloc: Global) -> Result<(), BoardFault> {
    let _room = Vec::<u8>::with_capacity(alloc, 1)?;
    Ok(())
}

// A share of all parts is split and joined, and audited. One part is handed over.
fn share_calls<'a, L: InputLedger>(
    rt: &impl Abort,
    board: &mut MemoryBoard<'a, L>,
    share: &mut Share<L>,
) -> Share<L> {
    assert_that(rt, share.parts() == 128 && share.chunks() == 0);
    let part = share.split();
    share.join(part);
    board.audit(share);
    share.split()
}

// The readers of a plan of three chunks, and of what is done.
fn plan_calls(rt: &impl Abort, plan: &Plan) {
    assert_same(
        rt,
        (plan.input().len(), plan.first(), plan.len()),
        (3000, 0, 3),
    );
    assert_that(rt, plan.mode() == Mode::hash() && plan.span(3).is_none());
    let done = plan.job(2).expect(rt, "a job").work();
    assert_that(rt, done.span() == span(2, 1) && done.node().d == 2);
}

// The readers of a board of three chunks with nothing left to do, and of its root.
fn board_calls<'a, L: InputLedger>(rt: &impl Abort, plan: &Plan<'a>, board: &MemoryBoard<'a, L>) {
    assert_that(rt, board.is_over(plan) && board.input().len() == 3000);
    assert_same(
        rt,
        (board.open_spans(), board.deposited(), board.waiting()),
        (0, 3, 0),
    );
    assert_that(
        rt,
        board.open_span(0).is_none() && board.piece(0) == Some(span(0, 3)),
    );
    let root = board.root().expect(rt, "a root");
    assert_that(rt, root.kept() && !plan.plain().kept());
    assert_same(rt, plan.plain().node(), root.node());
}

// A worker goes through the spans, its seat is joined, and the claims are closed. How many chunks it deposited, and how
// many claims there were.
fn claim_calls<'a, L: InputLedger, R: Wait + Abort>(
    rt: &R,
    plan: &Plan<'a>,
    board: &Mutex<MemoryBoard<'a, L>>,
    claims: Claims,
    mut seat: Seat,
    theirs: Share<L>,
) -> (u64, usize)
    requires count { claims.count ≡ length plan.now.spans }
    requires own { IsSeatOf claims seat }
{
    assert_that(rt, seat.parts() == 128 && seat.claimed().is_empty());
    let other = claims.split(&mut seat);
    let ended = worker(rt, plan, board, &claims, other, theirs, 1, &OpenGate);
    claims.join(&mut seat, ended.seat);
    assert_that(rt, seat.parts() == 128);
    (ended.share.chunks(), claims.close(seat).len())
}

// Makes a board and claims, then perhaps calls everything that is said to take no memory: seats and shares are split
// and joined, the share is audited, work is deposited and refused, a worker runs, the board is swept and the claims
// are closed.
fn growths_on<'a, L: InputLedger, R: Wait + Abort>(
    rt: &R,
    alloc: Global,
    plan: &Plan<'a>,
    with_calls: bool,
    blank: Blank,
) -> Result<(), BoardFault>
    requires name { blank.name ≡ L.name }
    requires parts { blank.parts ≡ L.parts }
    requires whole { L.parts ≡ 128 }
    requires own { IsPlanOf L.input L.mode L.first plan.now }
{
    let (mut board, mut share) = open_board::<L>(alloc, plan, blank)?;
    let (claims, seat) = Claims::new(alloc, plan.len())?;
    if !with_calls {
        return last_growth(alloc);
    }
    let theirs = share_calls(rt, &mut board, &mut share);
    for _ in 0..2usize {
        let _refused = deposit(rt, &mut board, &mut share, plan, 0);
    }
    let board = Mutex::new(board);
    let deposited = claim_calls(rt, plan, &board, claims, seat, theirs);
    assert_same(rt, deposited, (2, plan.len()));
    let mut board = board.into_inner();
    assert_same(rt, default_grain(3), 16);
    assert_same(rt, (sweep(&mut board, &mut share), share.chunks()), (0, 1));
    plan_calls(rt, plan);
    board_calls(rt, plan, &board);
    last_growth(alloc)
}

fn growths<R: Wait + Abort>(
    rt: &R,
    alloc: Global,
    input: &[u8],
    with_calls: bool,
) -> Result<(), BoardFault> {
    let plan = Plan::new(alloc, input, Mode::hash(), 1)?;
    growths_on::<Brand, R>(rt, alloc, &plan, with_calls, Blank::new(128))
}

// The two tests fail where `make refused` refuses a growth of theirs, up to the last one: they have as many growths
// only if none of the calls takes memory.
#[test]
fn growths_without_calls(rt: HostRuntime) -> Result<(), Fail> {
    Ok(growths(&rt, rt.alloc(), &[7; 3000], false)?)
}

#[test]
fn growths_with_calls(rt: HostRuntime) -> Result<(), Fail> {
    Ok(growths(&rt, rt.alloc(), &[7; 3000], true)?)
}
