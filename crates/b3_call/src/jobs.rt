// Jobs over operands.

ghost use Rattle.std.specs.Prelude.{◌+◌, ◌^◌, ◌<◌, ◌≤◌, IfOk, IfErr};
ghost use Rattle.b3_io.specs.Operands.{operands_left};
ghost use Rattle.b3_io.specs.Runs.{Ran, RanSurely, Stopped, io_state};
ghost use Rattle.b3_program.specs.Tasks.{limits_for};
ghost use Rattle.b3_call.specs.Programs.{CanDo, CanTake, DoesJob, script_of};

use b3_board::Gate;
use b3_check::{Operands, RunFault, Shelf, Sink, Tally, run_check, run_sum};
use b3_program::{Job, fail};
use std::alloc::Global;
use std::sync::Wait;
use std::thread::Threads;

/// Does a job over operands, and answers the status.
pub fn run_job<R: Threads + Wait + Sync, S: Shelf + Send + Sync, O: Sink, E: Sink, G: Gate + Sync>(
    rt: &R,
    alloc: Global,
    shelf: &mut S,
    job: &Job,
    operands: Operands<'_>,
    out: &mut O,
    err: &mut E,
    gate: &G,
) -> u8
    requires job { CanDo job.now }
    requires operands { CanTake job.now (operands_left operands) }
    requires shelf_failures { S.failures shelf.old < 2 ^ 63 }
    requires out_failures { O.failures out.old < 2 ^ 63 }
    requires err_failures { E.failures err.old < 2 ^ 63 }
    ensures { DoesJob job.now (operands_left operands.entry)
        (io_state S.Shelf O.Sink E.Sink shelf.old out.old err.old)
        (io_state S.Shelf O.Sink E.Sink shelf.new out.new err.new) result }
{
    match run_engine(rt, alloc, shelf, job, operands, out, err, gate) {
        Ok(tally) => tally.status(),
        Err(fault) => fail(err, fault),
    }
}

// Runs the engine of a job.
fn run_engine<R: Threads + Wait + Sync, S: Shelf + Send + Sync, O: Sink, E: Sink, G: Gate + Sync>(
    rt: &R,
    alloc: Global,
    shelf: &mut S,
    job: &Job,
    operands: Operands<'_>,
    out: &mut O,
    err: &mut E,
    gate: &G,
) -> Result<Tally, RunFault>
    requires job { CanDo job.now }
    requires operands { CanTake job.now (operands_left operands) }
    requires shelf_failures { S.failures shelf.old < 2 ^ 63 }
    requires out_failures { O.failures out.old < 2 ^ 63 }
    requires err_failures { E.failures err.old < 2 ^ 63 }
    ensures ok { IfOk result (λ tally. Ran (script_of job.now (operands_left operands.entry))
        (io_state S.Shelf O.Sink E.Sink shelf.old out.old err.old)
        (io_state S.Shelf O.Sink E.Sink shelf.new out.new err.new) tally) }
    ensures sure { IfOk result (λ tally. RanSurely (script_of job.now (operands_left operands.entry))
        (io_state S.Shelf O.Sink E.Sink shelf.old out.old err.old)
        (io_state S.Shelf O.Sink E.Sink shelf.new out.new err.new) tally) }
    ensures fault { IfErr result (λ fault.
        Stopped (limits_for job.now) (script_of job.now (operands_left operands.entry))
        (io_state S.Shelf O.Sink E.Sink shelf.old out.old err.old)
        (io_state S.Shelf O.Sink E.Sink shelf.new out.new err.new) fault) }
    ensures err_count { E.failures err.new ≤ E.failures err.old + 1 }
{
    match job {
        Job::Sum(options) => run_sum(rt, alloc, shelf, operands, out, err, options, gate),
        Job::Check(options) => run_check(rt, alloc, shelf, operands, out, err, options, gate),
    }
}
