// Jobs over the names in a list.

ghost use Rattle.std.specs.Prelude.{◌≡◌, ◌-◌, ◌^◌, ◌<◌, ◌≤◌, length};
ghost use Rattle.b3_io.specs.Operands.{operands_in};
ghost use Rattle.b3_io.specs.Runs.{IoState, io_state, sink_state};
ghost use Rattle.b3_io.specs.declared.options.Limits.{Limits};
ghost use Rattle.b3_program.specs.Lists.{refusal_over};
ghost use Rattle.b3_call.specs.Programs.{CanDo, Does, DoesByList, DoesJob, EndsAs, unread_script, with_err};

use crate::jobs::run_job;
use b3_board::Gate;
use b3_check::{ListReader, Operands, RunFault, Shelf, Sink, complaint, write_all};
use b3_program::{FAILURE, Job, fail, refusal_over, refuse};
use std::alloc::Global;
use std::sync::Wait;
use std::thread::Threads;

/// Does a job over the names in a list, which is read first, and answers the status.
pub fn run_in_list<
    R: Threads + Wait + Sync,
    S: Shelf + Send + Sync,
    O: Sink,
    E: Sink,
    G: Gate + Sync,
>(
    rt: &R,
    alloc: Global,
    shelf: &mut S,
    job: &Job,
    list: &str,
    out: &mut O,
    err: &mut E,
    gate: &G,
) -> u8
    requires job { CanDo job.now }
    requires shelf_failures { S.failures shelf.old < 2 ^ 63 }
    requires out_failures { O.failures out.old < 2 ^ 63 }
    requires err_failures { E.failures err.old < 2 ^ 63 }
    ensures { DoesByList job.now list.now
        (io_state S.Shelf O.Sink E.Sink shelf.old out.old err.old)
        (io_state S.Shelf O.Sink E.Sink shelf.new out.new err.new) result }
{
    let Ok(mut reader) = ListReader::new(alloc) else {
        return fail(err, RunFault::Memory);
    };
    match reader.read(shelf, list, job.limits()) {
        Ok(Ok(())) => run_over(rt, alloc, shelf, job, list, reader.text(), out, err, gate),
        Ok(Err(_)) => say_unread(alloc, list, err),
        Err(fault) => fail(err, fault),
    }
}

// Says that a list of names cannot be read, and answers the status.
fn say_unread<E: Sink>(alloc: Global, list: &str, err: &mut E) -> u8
    requires { E.failures err.old < 2 ^ 64 - 2 }
    ensures { (limits : Limits) (before : IoState) → before.err ≡ sink_state E.Sink err.old
        → Does limits (unread_script list.now) before (with_err before (sink_state E.Sink err.new)) result }
{
    let Ok(text) = complaint(alloc, list, "cannot read") else {
        return fail(err, RunFault::Memory);
    };
    match write_all(err, text.as_slice()) {
        Ok(()) => FAILURE,
        Err(_) => fail(err, RunFault::WriteFault),
    }
}

// Does a job over the operands in a list of this content, unless they are refused, and answers the status.
fn run_over<R: Threads + Wait + Sync, S: Shelf + Send + Sync, O: Sink, E: Sink, G: Gate + Sync>(
    rt: &R,
    alloc: Global,
    shelf: &mut S,
    job: &Job,
    list: &str,
    content: &[u8],
    out: &mut O,
    err: &mut E,
    gate: &G,
) -> u8
    requires job { CanDo job.now }
    requires content { length content.now ≤ 2 ^ 30 }
    requires shelf_failures { S.failures shelf.old < 2 ^ 63 }
    requires out_failures { O.failures out.old < 2 ^ 63 }
    requires err_failures { E.failures err.old < 2 ^ 63 }
    ensures { EndsAs (refusal_over job.now (operands_in list.now content.now))
        (DoesJob job.now (operands_in list.now content.now))
        (io_state S.Shelf O.Sink E.Sink shelf.old out.old err.old)
        (io_state S.Shelf O.Sink E.Sink shelf.new out.new err.new) result }
{
    match refusal_over(job, list, content) {
        Some(usage) => refuse(err, &usage),
        None => {
            let operands = Operands::in_list(list, content);
            run_job(rt, alloc, shelf, job, operands, out, err, gate)
        }
    }
}
