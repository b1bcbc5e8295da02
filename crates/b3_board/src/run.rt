// A run of workers over a board, in threads of their own.

ghost use Rattle.std.specs.Prelude.{◌≡◌, ℕ, ◌+◌, ◌<◌, ◌≤◌, [], All, length, sum, sum_by, true, IfErr, IfOk, IfSome, IsSome, IsTrue};
ghost use Rattle.b3_core.specs.Tree.{chunks};
ghost use Rattle.b3_claims.specs.Seats.{IsSeatOf};
ghost use Rattle.b3_board.specs.Spans.{IsRootOf};
ghost use Rattle.b3_board.specs.WorkerRuns.{HasEachOnce};
ghost use Rattle.b3_board.specs.WorkerStates.{HasEnded, HasRun, IsNewState, seat_parts, share_parts};
ghost use Rattle.b3_claims.specs.declared.fault.BoardFault.TheVariants.{Memory};

use crate::backing::Backing;
use crate::board::Board;
use crate::gate::Gate;
use crate::input_ledger::InputLedger;
use crate::report::Report;
use crate::root::Root;
use crate::share::Share;
use crate::span_hasher::SpanHasher;
use crate::worker_state::{JoinedWorkers, WorkerState, join_workers, scatter, thread_count};
use crate::workers::work;
use b3_claims::{BoardFault, Claims};
use b3_threads::for_each_beside;
use std::alloc::Global;
use std::sync::{Mutex, Wait};
use std::thread::Threads;

// Runs the workers over a board with all spans open and its whole share. What none of them deposited, though none gave
// up a span, this call hashes, and reports as swept. None where the bytes of some span could not be had.
pub(crate) fn run<
    R: Threads + Wait + Sync,
    H: Backing + Send + Sync,
    L: InputLedger + Send + Sync,
    C: SpanHasher<H, L> + Sync,
    G: Gate + Sync,
>(
    rt: &R,
    alloc: Global,
    hasher: &C,
    board: Board<H, L>,
    share: Share<L>,
    workers: u32,
    buffer: &mut [u8],
    gate: &G,
) -> Result<Option<Report>, BoardFault>
    requires own { C.is_own hasher.now }
    requires serves { C.serves hasher.now (length buffer.old) }
    requires new { (share.parts ≡ 128) × (share.chunks ≡ 0) }
    requires some { 0 < workers }
    requires few { workers ≤ 64 }
    ensures root { IfOk result (λ found. IfSome found (λ report. IsRootOf L.input L.mode L.first report.root.node)) }
    ensures kept { IfOk result (λ found. IfSome found (λ report. report.root.kept ≡ true)) }
    ensures claimed { IfOk result (λ found. IfSome found (λ report.
        HasEachOnce (length (C.spans hasher.now)) report.claimed.items)) }
    ensures shares { IfOk result (λ found. IfSome found (λ report. length report.shares.items ≡ workers)) }
    ensures all { IfOk result (λ found. IfSome found (λ report.
        sum report.shares.items + report.swept ≡ chunks L.input.len)) }
    ensures sure { H.sure → IfOk result (λ found. IsSome found) }
    ensures only { IfErr result (λ fault. fault ≡ Memory) }
{
    let board = Mutex::new(board);
    let joined = run_all(rt, alloc, hasher, &board, share, workers, buffer, gate)?;
    let Some((root, swept)) = take_root(board.into_inner(), hasher, buffer, joined.share) else {
        return Ok(None);
    };
    Ok(Some(Report {
        root,
        claimed: joined.claimed,
        shares: joined.shares,
        swept,
    }))
}

// Deals out seats, shares and the buffer, runs the workers, and joins what they hold.
fn run_all<
    R: Threads + Wait + Sync,
    H: Backing + Send + Sync,
    L: InputLedger + Send + Sync,
    C: SpanHasher<H, L> + Sync,
    G: Gate + Sync,
>(
    rt: &R,
    alloc: Global,
    hasher: &C,
    board: &Mutex<Board<H, L>>,
    mut share: Share<L>,
    workers: u32,
    buffer: &mut [u8],
    gate: &G,
) -> Result<JoinedWorkers<L>, BoardFault>
    requires own { C.is_own hasher.now }
    requires new { (share.parts ≡ 128) × (share.chunks ≡ 0) }
    requires some { 0 < workers }
    requires few { workers ≤ 64 }
    ensures whole { IfOk result (λ joined. joined.share.parts ≡ 128) }
    ensures claimed { IfOk result (λ joined. HasEachOnce (length (C.spans hasher.now)) joined.claimed.items) }
    ensures shares { IfOk result (λ joined. length joined.shares.items ≡ workers) }
    ensures chunks { IfOk result (λ joined. joined.share.chunks ≡ sum joined.shares.items) }
    ensures only { IfErr result (λ fault. fault ≡ Memory) }
{
    let spans = hasher.cutting();
    let (claims, mut seat) = Claims::new(alloc, spans.len())?;
    let threads = thread_count(spans.len(), workers, buffer.len(), hasher.buffer_len());
    let mut states = scatter(alloc, &claims, &mut seat, &mut share, threads, buffer)?;
    run_each(rt, hasher, board, &claims, states.as_mut_slice(), gate);
    Ok(join_workers(claims, spans, seat, share, states, workers as usize))
}

// Runs the workers, each in a thread of its own, which lends it its seat and its share.
fn run_each<
    R: Threads + Wait + Sync,
    H: Backing + Send + Sync,
    L: InputLedger + Send + Sync,
    C: SpanHasher<H, L> + Sync,
    G: Gate + Sync,
>(
    rt: &R,
    hasher: &C,
    board: &Mutex<Board<H, L>>,
    claims: &Claims,
    states: &mut [WorkerState<'_, L>],
    gate: &G,
)
    requires own { C.is_own hasher.now }
    requires count { claims.now.count ≡ length (C.spans hasher.now) }
    requires some { 0 < length states.old }
    requires each { All (IsNewState claims.now) states.old }
    ensures len { length states.new ≡ length states.old }
    ensures each { All (HasEnded claims.now (C.spans hasher.now)) states.new }
    ensures seat_parts { sum_by seat_parts states.new ≡ sum_by seat_parts states.old }
    ensures share_parts { sum_by share_parts states.new ≡ sum_by share_parts states.old }
{
    for_each_beside(
        rt,
        states,
        &|number, state: &mut WorkerState<'_, L>|
            requires { C.is_own hasher.now
                × (claims.now.count ≡ length (C.spans hasher.now))
                × IsSeatOf claims.now state.now.seat }
            ensures { HasRun claims.entry.now (C.spans hasher.entry.now) state.entry.now state.exit.now }
        {
            work(
                rt,
                hasher,
                board,
                claims,
                &mut state.seat,
                &mut state.share,
                state.buffer,
                number,
                gate,
            )
        },
    );
}

// The root of a board of which no worker has a share any more, and the chunks that none of them deposited, though none
// gave up a span: these are hashed here. None where the bytes of some span could not be had.
fn take_root<H: Backing, L: InputLedger, C: SpanHasher<H, L>>(
    mut board: Board<H, L>,
    hasher: &C,
    buffer: &mut [u8],
    mut share: Share<L>,
) -> Option<(Root, u64)>
    requires own { C.is_own hasher.now }
    requires serves { C.serves hasher.now (length buffer.old) }
    requires whole { share.parts ≡ 128 }
    ensures root { IfSome result (λ found. IsRootOf L.input L.mode L.first found.0.node) }
    ensures kept { IfSome result (λ found. found.0.kept ≡ true) }
    ensures all { IfSome result (λ found. share.chunks + found.1 ≡ chunks L.input.len) }
    ensures sure { H.sure → IsSome result }
{
    if board.has_missed() {
        return None;
    }
    let before = share.chunks();
    if !hash_open(&mut board, hasher, buffer, &mut share) {
        return None;
    }
    board.audit(&mut share);
    let Some(root) = board.root() else {
        return None;
    };
    Some((root, share.chunks() - before))
}

// Hashes and closes every open span; false where the bytes of one could not be had. No run has left one open, but a
// board behind a lock tells no more than its laws.
fn hash_open<H: Backing, L: InputLedger, C: SpanHasher<H, L>>(
    board: &mut Board<H, L>,
    hasher: &C,
    buffer: &mut [u8],
    share: &mut Share<L>,
) -> bool
    requires own { C.is_own hasher.now }
    requires serves { C.serves hasher.now (length buffer.old) }
    ensures none { IsTrue result → board.new.open_spans ≡ [] }
    ensures parts { share.new.parts ≡ share.old.parts }
    ensures grown { share.old.chunks ≤ share.new.chunks }
    ensures sure { H.sure → IsTrue result }
{
    'spans: while let Some(span) = board.next_open() {
        let Some(Ok(own)) = hasher.hash(span, buffer) else {
            return false;
        };
        let Ok(()) = board.deposit_own(own, share) else {
            return false;
        };
    }
    true
}
