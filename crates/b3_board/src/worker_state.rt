// The workers of a run, over a plan or over a source: what is handed out to them, and joined again.

ghost use Rattle.std.specs.Prelude.{◌≡◌, ℕ, ◌+◌, ◌<◌, ◌≤◌, ◌^◌, [], All, length, sum, sum_by, vec_len, IfOk, IsTrue, ◌↔◌};
ghost use Rattle.b3_claims.specs.Seats.{HasSeenAll, IsSeatOf};
ghost use Rattle.b3_board.specs.Spans.{chunks_in};
ghost use Rattle.b3_board.specs.WorkerRuns.{HasEachOnce};
ghost use Rattle.b3_board.specs.WorkerStates.{HasEnded, IsNewState, seat_parts, share_parts};

use crate::share::Share;
use arrayvec::ArrayVec;
use b3_claims::{Claims, Seat};
use b3_core::Span;
use std::alloc::{AllocError, Global};
use std::sync::ledger::Ledger;

/// The greatest number of workers of a run.
pub const MAX_WORKERS: u32 = 64;

// What each worker of a run works with, and keeps for the run to join: its seat, its share, and a part of the run's
// buffer.
#[derive(Drop)]
pub(crate) struct WorkerState<'r, L: Ledger> {
    pub(crate) seat: Seat,
    pub(crate) share: Share<L>,
    pub(crate) buffer: &'r mut [u8],
}

// What a run of workers leaves: the whole share of the board, the indexes in some order in which they were claimed, and
// the chunks that each worker deposited.
#[derive(Drop)]
pub(crate) struct JoinedWorkers<L: Ledger> {
    pub(crate) share: Share<L>,
    pub(crate) claimed: ArrayVec<u32, 1024>,
    pub(crate) shares: ArrayVec<u64, 64>,
}

// Whether a run may have so many workers.
pub(crate) fn is_worker_count(workers: u32) -> bool
    ensures { IsTrue result ↔ ((0 < workers) × (workers ≤ 64)) }
{
    0 < workers && workers <= MAX_WORKERS
}

// How many of the workers run, each in a thread: no more than there are spans, or than the buffer serves.
pub(crate) fn thread_count(spans: usize, workers: u32, buffer: usize, buffer_len: usize) -> usize
    requires { (0 < workers) × (0 < spans) }
    ensures some { 0 < result }
    ensures few { result ≤ workers }
{
    let most = spans.min(workers as usize);
    if buffer_len == 0 {
        return most;
    }
    most.min((buffer / buffer_len).max(1))
}

// Hands one part of the seat and of the share, and an equal part of the buffer, to each of so many workers.
pub(crate) fn scatter<'r, L: Ledger>(
    alloc: Global,
    claims: &Claims,
    seat: &mut Seat,
    share: &mut Share<L>,
    count: usize,
    buffer: &'r mut [u8],
) -> Result<Vec<WorkerState<'r, L>>, AllocError>
    requires some { 0 < count }
    requires own { IsSeatOf claims.now seat.old }
    requires parts { (count < seat.old.view.parts) × (count < share.old.parts) }
    ensures own { IsSeatOf claims.now seat.new }
    ensures claimed { seat.new.view.claimed ≡ seat.old.view.claimed }
    ensures chunks { share.new.chunks ≡ share.old.chunks }
    ensures len { IfOk result (λ states. vec_len states ≡ count) }
    ensures each { IfOk result (λ states. All (IsNewState claims.now) states.items) }
    ensures seat_parts { IfOk result (λ states.
        seat.new.view.parts + sum_by seat_parts states.items ≡ seat.old.view.parts) }
    ensures share_parts { IfOk result (λ states.
        share.new.parts + sum_by share_parts states.items ≡ share.old.parts) }
{
    let mut states = Vec::with_capacity(alloc, count)?;
    let size = buffer.len() / count;
    let mut left = buffer;
    for _ in 0..count {
        let (buffer, rest) = cut(left, size);
        left = rest;
        let state = WorkerState {
            seat: claims.split(seat),
            share: share.split(),
            buffer,
        };
        states.push(state)?;
    }
    Ok(states)
}

// The first `len` bytes of the buffer, or all where it has fewer, and the rest.
fn cut<'r>(buffer: &'r mut [u8], len: usize) -> (&'r mut [u8], &'r mut [u8]) {
    let part = len.min(buffer.len());
    buffer.split_at_mut(part)
}

// Joins what the workers hold, once each went through all spans, to the first seat and share.
pub(crate) fn join_workers<L: Ledger>(
    claims: Claims,
    spans: &[Span],
    seat: Seat,
    share: Share<L>,
    states: Vec<WorkerState<'_, L>>,
    workers: usize,
) -> JoinedWorkers<L>
    requires count { claims.count ≡ length spans.now }
    requires small { (length spans.now ≤ 1024) × (chunks_in spans.now ≤ 2 ^ 20) }
    requires own { IsSeatOf claims seat }
    requires new { (seat.view.claimed ≡ []) × (share.chunks ≡ 0) }
    requires each { All (HasEnded claims spans.now) states.items }
    requires some { (0 < length states.items) × (length states.items ≤ workers) × (workers ≤ 64) }
    requires seat_parts { seat.view.parts + sum_by seat_parts states.items ≡ 128 }
    requires share_parts { share.parts + sum_by share_parts states.items ≡ 128 }
    ensures whole { result.share.parts ≡ 128 }
    ensures claimed { HasEachOnce (length spans.now) result.claimed.items }
    ensures shares { length result.shares.items ≡ workers }
    ensures chunks { result.share.chunks ≡ sum result.shares.items }
{
    let (seat, share, shares) = gather(&claims, spans, seat, share, states);
    JoinedWorkers {
        share,
        claimed: close(claims, seat, spans.len()),
        shares: padded(shares, workers),
    }
}

// Joins what the workers hold to the first seat and share, and lists the chunks of their shares.
fn gather<L: Ledger>(
    claims: &Claims,
    spans: &[Span],
    mut seat: Seat,
    mut share: Share<L>,
    states: Vec<WorkerState<'_, L>>,
) -> (Seat, Share<L>, ArrayVec<u64, 64>)
    requires count { claims.now.count ≡ length spans.now }
    requires small { (length spans.now ≤ 1024) × (chunks_in spans.now ≤ 2 ^ 20) }
    requires own { IsSeatOf claims.now seat }
    requires new { (seat.view.claimed ≡ []) × (share.chunks ≡ 0) }
    requires each { All (HasEnded claims.now spans.now) states.items }
    requires some { (0 < length states.items) × (length states.items ≤ 64) }
    ensures own { IsSeatOf claims.now result.0 }
    ensures seen { HasSeenAll (length spans.now) result.0 }
    ensures seat_parts { result.0.view.parts ≡ seat.view.parts + sum_by seat_parts states.entry.items }
    ensures share_parts { result.1.parts ≡ share.parts + sum_by share_parts states.entry.items }
    ensures chunks { result.1.chunks ≡ sum result.2.items }
    ensures shares { length result.2.items ≡ length states.entry.items }
{
    let mut shares = ArrayVec::new();
    for state in states {
        shares.push(state.share.chunks());
        claims.join(&mut seat, state.seat);
        share.join(state.share);
    }
    (seat, share, shares)
}

// The numbers, with a 0 for each worker that did not run.
fn padded(mut shares: ArrayVec<u64, 64>, workers: usize) -> ArrayVec<u64, 64>
    requires { (length shares.items ≤ workers) × (workers ≤ 64) }
    ensures shares { length result.items ≡ workers }
    ensures sum { sum result.items ≡ sum shares.items }
{
    for _ in shares.len()..workers {
        shares.push(0);
    }
    shares
}

// Adds chunks to the first number.
pub(crate) fn add_to_first(shares: &mut ArrayVec<u64, 64>, count: u64)
    requires some { 0 < length shares.old.items }
    requires few { sum shares.old.items + count < 2 ^ 64 }
    ensures shares { length shares.new.items ≡ length shares.old.items }
    ensures sum { sum shares.new.items ≡ sum shares.old.items + count }
{
    shares.as_mut_slice()[0] += count;
}

// The list of a seat with all parts that has seen every index.
fn close(claims: Claims, seat: Seat, count: usize) -> ArrayVec<u32, 1024>
    requires own { IsSeatOf claims seat }
    requires count { claims.count ≡ count }
    requires whole { seat.view.parts ≡ 128 }
    requires seen { HasSeenAll count seat }
    ensures { HasEachOnce count result.items }
{
    claims.close(seat)
}
