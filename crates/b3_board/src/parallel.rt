// A run of workers over a plan.

ghost use Rattle.std.specs.Prelude.{◌≡◌, ◌⊎◌, ◌+◌, ◌<◌, ◌≤◌, Err, IfErr, IfOk, length, sum};
ghost use Rattle.b3_core.specs.Tree.{chunks};
ghost use Rattle.b3_board.specs.Faults.{IsWorkersFault};
ghost use Rattle.b3_board.specs.Plans.{IsPlanOf};
ghost use Rattle.b3_board.specs.WorkerRuns.{HasEachOnce, kept_root};
ghost use Rattle.b3_claims.specs.declared.fault.BoardFault.{BoardFault};
ghost use Rattle.b3_claims.specs.declared.fault.BoardFault.TheVariants.{Memory};

use crate::board::MemoryBoard;
use crate::gate::Gate;
use crate::input_ledger::InputLedger;
use crate::plan::Plan;
use crate::report::Report;
use crate::run::run;
use crate::worker_state::is_worker_count;
use b3_claims::BoardFault;
use std::alloc::Global;
use std::marker::Brand;
use std::sync::Wait;
use std::sync::ledger::Blank;
use std::thread::Threads;

/// Hashes the plan's input by so many workers.
///
/// Refused by `BadWorkers` where there are none or more than 64, else by `Memory` where a growth is. As many workers
/// get a thread of their own as there are spans. Where no thread can be made the workers run one after another. The
/// report has a number for each worker that was asked for.
pub fn hash_parallel<'a, R: Threads + Wait + Sync, G: Gate + Sync>(
    rt: &R,
    alloc: Global,
    plan: &Plan<'a>,
    workers: u32,
    gate: &G,
) -> Result<Report, BoardFault>
    ensures root { IfOk result (λ report. report.root ≡ kept_root plan.now) }
    ensures claimed { IfOk result (λ report. HasEachOnce (length plan.now.spans) report.claimed.items) }
    ensures shares { IfOk result (λ report. length report.shares.items ≡ workers) }
    ensures all { IfOk result (λ report. sum report.shares.items + report.swept ≡ chunks (length plan.now.input)) }
    ensures refused { (fault : BoardFault) → IsWorkersFault workers fault → result ≡ Err fault }
    ensures only { IfErr result (λ fault. (fault ≡ Memory) ⊎ IsWorkersFault workers fault) }
{
    if !is_worker_count(workers) {
        return Err(BoardFault::BadWorkers);
    }
    // The proof of this call picks the plan's input, mode and first chunk for those that `Brand` names.
    hash_parallel_on::<R, Brand, G>(rt, alloc, plan, workers, gate, Blank::new(128))
}

// The same on a board whose ledger the blank is.
fn hash_parallel_on<'a, R: Threads + Wait + Sync, L: InputLedger + Send + Sync, G: Gate + Sync>(
    rt: &R,
    alloc: Global,
    plan: &Plan<'a>,
    workers: u32,
    gate: &G,
    blank: Blank,
) -> Result<Report, BoardFault>
    requires name { blank.name ≡ L.name }
    requires parts { blank.parts ≡ L.parts }
    requires whole { L.parts ≡ 128 }
    requires plan { IsPlanOf L.input L.mode L.first plan.now }
    requires some { 0 < workers }
    requires few { workers ≤ 64 }
    ensures root { IfOk result (λ report. report.root ≡ kept_root plan.now) }
    ensures claimed { IfOk result (λ report. HasEachOnce (length plan.now.spans) report.claimed.items) }
    ensures shares { IfOk result (λ report. length report.shares.items ≡ workers) }
    ensures all { IfOk result (λ report. sum report.shares.items + report.swept ≡ chunks (length plan.now.input)) }
    ensures only { IfErr result (λ fault. fault ≡ Memory) }
{
    let (board, share) = MemoryBoard::<'a, L>::new(alloc, plan, blank)?;
    let found = run(rt, alloc, plan, board, share, workers, &mut [], gate)?;
    Ok(found.unwrap())
}
