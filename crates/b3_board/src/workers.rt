// A worker goes through spans: it claims, hashes, passes the gate and deposits.

ghost use Rattle.std.specs.Prelude.{◌≡◌, ℕ, ◌+◌, ◌<◌, ◌≤◌, length};
ghost use Rattle.b3_claims.specs.Seats.{IsSeatOf};
ghost use Rattle.b3_board.specs.WorkerRuns.{HasWorked, count_at};

use crate::backing::Backing;
use crate::board::{Board, MemoryBoard};
use crate::gate::Gate;
use crate::input_ledger::InputLedger;
use crate::plan::Plan;
use crate::share::Share;
use crate::span_hasher::SpanHasher;
use b3_claims::{Claims, Seat};
use std::sync::ledger::Ledger;
use std::sync::{Mutex, Wait};

/// What a worker gives back.
#[derive(Drop)]
pub struct Ended<L: Ledger> {
    /// Its seat at the claims.
    pub seat: Seat,
    /// Its share of the board's ledger.
    pub share: Share<L>,
}

/// Tries every span of the plan in order. For each that it claims, it hashes the span without the lock,
/// passes the gate, takes the lock and deposits. A deposit that is refused changes nothing.
///
/// Seat and share come back with their old parts; the seat has seen every index, and the share grew by no more than
/// the chunks of the spans that it newly claimed.
pub fn worker<'a, R: Wait, L: InputLedger, G: Gate + Sync>(
    rt: &R,
    plan: &Plan<'a>,
    board: &Mutex<MemoryBoard<'a, L>>,
    claims: &Claims,
    mut seat: Seat,
    mut share: Share<L>,
    number: usize,
    gate: &G,
) -> Ended<L>
    requires count { claims.now.count ≡ length plan.now.spans }
    requires own { IsSeatOf claims.now seat }
    ensures own { IsSeatOf claims.now result.seat }
    ensures worked { HasWorked plan.now.spans (length plan.now.spans) seat share result.seat result.share }
{
    for i in 0..plan.len() {
        if claims.try_claim(&mut seat, i) {
            work_job(rt, plan, board, &mut share, number, i, gate);
        }
    }
    Ended { seat, share }
}

// Does job `i` without the lock, passes the gate and deposits under the lock.
fn work_job<'a, R: Wait, L: InputLedger, G: Gate + Sync>(
    rt: &R,
    plan: &Plan<'a>,
    board: &Mutex<MemoryBoard<'a, L>>,
    share: &mut Share<L>,
    number: usize,
    i: usize,
    gate: &G,
)
    ensures parts { share.new.parts ≡ share.old.parts }
    ensures grown { share.new.chunks ≤ share.old.chunks + count_at plan.now.spans i }
{
    let Some(job) = plan.job(i) else {
        return;
    };
    let done = job.work();
    gate.pass(number, i);
    let mut board = board.lock(rt);
    let _refused = board.deposit(done, share);
}

// The same over the input that the board's type names, whose bytes are not compared, with seat, share and a buffer
// lent, which saves a run the copies of its workers' lists.
pub(crate) fn work<R: Wait, H: Backing, L: InputLedger, C: SpanHasher<H, L>, G: Gate + Sync>(
    rt: &R,
    hasher: &C,
    board: &Mutex<Board<H, L>>,
    claims: &Claims,
    seat: &mut Seat,
    share: &mut Share<L>,
    buffer: &mut [u8],
    number: usize,
    gate: &G,
)
    requires own_spans { C.is_own hasher.now }
    requires count { claims.now.count ≡ length (C.spans hasher.now) }
    requires own { IsSeatOf claims.now seat.old }
    ensures own { IsSeatOf claims.now seat.new }
    ensures worked { HasWorked (C.spans hasher.now) (length (C.spans hasher.now))
        seat.old share.old seat.new share.new }
{
    for i in 0..hasher.cutting().len() {
        if claims.try_claim(seat, i) {
            hash_span(rt, hasher, board, share, buffer, number, i, gate);
        }
    }
}

// Hashes span `i` without the lock, passes the gate and deposits under the lock. A span for which the buffer is too
// short stays open.
fn hash_span<R: Wait, H: Backing, L: InputLedger, C: SpanHasher<H, L>, G: Gate + Sync>(
    rt: &R,
    hasher: &C,
    board: &Mutex<Board<H, L>>,
    share: &mut Share<L>,
    buffer: &mut [u8],
    number: usize,
    i: usize,
    gate: &G,
)
    requires own_spans { C.is_own hasher.now }
    requires index { i < length (C.spans hasher.now) }
    ensures parts { share.new.parts ≡ share.old.parts }
    ensures grown { share.new.chunks ≤ share.old.chunks + count_at (C.spans hasher.now) i }
{
    let span = hasher.cutting()[i];
    let Some(made) = hasher.hash(span, buffer) else {
        return;
    };
    gate.pass(number, i);
    let mut board = board.lock(rt);
    board.deposit_or_miss(made, share);
}
