// A run of workers over a part of a source.

ghost use Rattle.std.specs.Int.{div_ceil};
ghost use Rattle.std.specs.Prelude.{◌≡◌, ◌⊎◌, ℕ, ◌+◌, ◌*◌, ◌<◌, ◌≤◌, ◌^◌, min, List, length, sum, true, Some, Err, IfErr, IfOk, IfSome, IsSome};
ghost use Rattle.b3_core.specs.Tree.{chunks};
ghost use Rattle.b3_board.specs.Faults.{IsGrainFault, IsWorkersFault};
ghost use Rattle.b3_board.specs.Regions.{region};
ghost use Rattle.b3_board.specs.SpanHashers.{IsSameInput};
ghost use Rattle.b3_board.specs.Spans.{IsRootOf};
ghost use Rattle.b3_board.specs.WorkerRuns.{HasEachOnce};
ghost use Rattle.b3_claims.specs.declared.fault.BoardFault.{BoardFault};
ghost use Rattle.b3_claims.specs.declared.fault.BoardFault.TheVariants.{Memory};

use crate::backing::{InSource, SourceLedger};
use crate::board::SourceBoard;
use crate::cutting::{MAX_INPUT, MAX_SPANS, grain_spans, is_grain};
use crate::gate::Gate;
use crate::input_ledger::Extent;
use crate::report::Report;
use crate::run::run;
use crate::source::Source;
use crate::source_plan::SourcePlan;
use crate::worker_state::{add_to_first, is_worker_count};
use b3_claims::BoardFault;
use b3_core::{Mode, chunks};
use std::alloc::Global;
use std::marker::Brand;
use std::sync::Wait;
use std::sync::ledger::Blank;
use std::thread::Threads;

/// Hashes `len` bytes of a source from `offset` on, whose chunks are numbered from `first`, in spans of `grain` chunks
/// by so many workers. Each worker that runs reads the spans that it claims into an equal part of the buffer, and
/// deposits them as one of [`hash_parallel`] does.
///
/// Refused by the first of `BadWorkers`, `BadGrain`, `TooLarge` and `TooManySpans` that holds, else by `Memory` where a
/// growth is. None where some span could not be read whole, or where the buffer is shorter than a span and than 256 KiB;
/// so a source that is sure of these bytes gives Some. No more workers run than the buffer has spans for, or pieces of
/// 256 KiB of longer spans: a worker reads these one after the other. The root is that of one
/// content of `len` bytes, which is the source's where the source tells it. Nothing is swept: a span that no worker
/// deposited, though none failed to read it, is read by this call and counted for the first worker.
pub fn hash_source<R: Threads + Wait + Sync, S: Source + Sync, G: Gate + Sync>(
    rt: &R,
    alloc: Global,
    source: &S,
    offset: u64,
    len: u64,
    mode: Mode,
    first: u64,
    grain: u64,
    workers: u32,
    buffer: &mut [u8],
    gate: &G,
) -> Result<Option<Report>, BoardFault>
    requires low { first + chunks len ≤ 2 ^ 54 }
    requires end { offset + len < 2 ^ 64 }
    requires there { (all : List ℕ) → S.told source.now ≡ Some all → offset + len ≤ length all }
    ensures root { IfOk result (λ found. IfSome found (λ report.
        IsRootOf (region (S.told source.now) offset len) mode first report.root.node)) }
    ensures kept { IfOk result (λ found. IfSome found (λ report. report.root.kept ≡ true)) }
    ensures claimed { IfOk result (λ found. IfSome found (λ report.
        HasEachOnce (div_ceil (chunks len) grain) report.claimed.items)) }
    ensures shares { IfOk result (λ found. IfSome found (λ report. length report.shares.items ≡ workers)) }
    ensures all { IfOk result (λ found. IfSome found (λ report. sum report.shares.items ≡ chunks len)) }
    ensures swept { IfOk result (λ found. IfSome found (λ report. report.swept ≡ 0)) }
    ensures sure { S.sure source.now (offset + len) → min (1024 * grain) len ≤ length buffer.old
        → IfOk result (λ found. IsSome found) }
    ensures bad_workers { (fault : BoardFault) → IsWorkersFault workers fault → result ≡ Err fault }
    ensures refused { 0 < workers → workers ≤ 64
        → (fault : BoardFault) → IsGrainFault len grain fault → result ≡ Err fault }
    ensures only { IfErr result (λ fault.
        (fault ≡ Memory) ⊎ IsWorkersFault workers fault ⊎ IsGrainFault len grain fault) }
{
    if !is_worker_count(workers) {
        return Err(BoardFault::BadWorkers);
    }
    // In the order of `IsGrainFault`, which decides.
    if !is_grain(grain) {
        return Err(BoardFault::BadGrain);
    }
    if len > MAX_INPUT as u64 {
        return Err(BoardFault::TooLarge);
    }
    let size = chunks(len);
    if size.div_ceil(grain) > MAX_SPANS {
        return Err(BoardFault::TooManySpans);
    }
    let spans = grain_spans(alloc, size, grain)?;
    let plan = SourcePlan {
        source,
        offset,
        len,
        mode,
        first,
        grain,
        spans,
    };
    if buffer.len() < plan.piece_len() {
        return Ok(None);
    }
    // The proof of this call picks what is known of the source, its mode and its first chunk for those that `Brand`
    // names.
    hash_source_on::<R, Brand, S, G>(rt, alloc, &plan, workers, buffer, gate, Blank::new(128))
}

// The same on a board whose ledger the blank is.
fn hash_source_on<
    R: Threads + Wait + Sync,
    L: SourceLedger + Send + Sync,
    S: Source + Sync,
    G: Gate + Sync,
>(
    rt: &R,
    alloc: Global,
    plan: &SourcePlan<S>,
    workers: u32,
    buffer: &mut [u8],
    gate: &G,
    blank: Blank,
) -> Result<Option<Report>, BoardFault>
    requires name { blank.name ≡ L.name }
    requires parts { blank.parts ≡ L.parts }
    requires whole { L.parts ≡ 128 }
    requires own { IsSameInput L.input L.mode L.first L.sure
        (region (S.told plan.now.source.now) plan.now.offset plan.now.len) plan.now.mode plan.now.first
        (S.sure plan.now.source.now (plan.now.offset + plan.now.len)) }
    requires grain { plan.now.grain ≡ L.grain }
    requires buffer { min 1024 plan.now.len ≤ length buffer.old }
    requires some { 0 < workers }
    requires few { workers ≤ 64 }
    ensures root { IfOk result (λ found. IfSome found (λ report. IsRootOf L.input L.mode L.first report.root.node)) }
    ensures kept { IfOk result (λ found. IfSome found (λ report. report.root.kept ≡ true)) }
    ensures claimed { IfOk result (λ found. IfSome found (λ report.
        HasEachOnce (length plan.now.spans.items) report.claimed.items)) }
    ensures shares { IfOk result (λ found. IfSome found (λ report. length report.shares.items ≡ workers)) }
    ensures all { IfOk result (λ found. IfSome found (λ report. sum report.shares.items ≡ chunks plan.now.len)) }
    ensures swept { IfOk result (λ found. IfSome found (λ report. report.swept ≡ 0)) }
    ensures sure { L.sure → IfOk result (λ found. IsSome found) }
    ensures only { IfErr result (λ fault. fault ≡ Memory) }
{
    let extent = Extent::new(plan.len, plan.mode);
    let spans = plan.spans.as_slice();
    let (board, share) = SourceBoard::<L>::open(alloc, InSource::new(), extent, spans, blank)?;
    let Some(mut report) = run(rt, alloc, plan, board, share, workers, buffer, gate)? else {
        return Ok(None);
    };
    add_to_first(&mut report.shares, report.swept);
    report.swept = 0;
    Ok(Some(report))
}
