ghost use Rattle.std.specs.Prelude.{◌≡◌, ◌^◌, ◌<◌, None, Some, IfOk, map, string_bytes};
ghost use Rattle.b3_io.specs.Contents.{Contents};
ghost use Rattle.b3_io.specs.Runs.{io_state};
ghost use Rattle.b3_program.specs.Tasks.{task_for};
ghost use Rattle.b3_program.specs.Usages.{refusal_for};
ghost use Rattle.b3_call.specs.Programs.{CanDo, CanTake, CanTakeNames, DoesJob, DoesTask, Ends, EndsRightly, IsDone, names_of, operands_of};

use crate::jobs::run_job;
use crate::lists::run_in_list;
use b3_board::Gate;
use b3_check::{INPUT_NAME, Operands, RunFault, Shelf, Sink};
use b3_program::{Job, Names, Task, Words, fail, refuse, settle};
use std::alloc::{AllocError, Global};
use std::sync::Wait;
use std::thread::Threads;

/// Does what the words of a call ask for, and answers the status: 2 where they ask for nothing that can
/// be done, else that of the run's tally, or 1 where a fault stops it. The refusal or the fault is said
/// on `err`.
pub fn run_words<
    R: Threads + Wait + Sync,
    S: Shelf + Send + Sync,
    O: Sink,
    E: Sink,
    G: Gate + Sync,
>(rt: &R, alloc: Global, shelf: &mut S, words: Words, out: &mut O, err: &mut E, gate: &G) -> u8
    requires shelf_failures { S.failures shelf.old < 2 ^ 63 }
    requires out_failures { O.failures out.old < 2 ^ 63 }
    requires err_failures { E.failures err.old < 2 ^ 63 }
    ensures ends { Ends words
        (io_state S.Shelf O.Sink E.Sink shelf.old out.old err.old)
        (io_state S.Shelf O.Sink E.Sink shelf.new out.new err.new) result }

    // Over a shelf that tells its contents, whatever fails: each name has the line of its content's digest or a
    // complaint in its place, or each line of each list the right verdict; at a fault a beginning of that. Names in a
    // list are those of its content, unless there is a complaint alone.
    ensures right { (contents : Contents) → S.told shelf.old ≡ Some contents → refusal_for words ≡ None
        → EndsRightly contents (task_for words)
        (O.held out.old) (O.held out.new) (E.held err.old) (E.held err.new) result }

    // Where the status is 0 each name has its line, or each line of each list is verified.
    ensures done { (contents : Contents) → S.told shelf.old ≡ Some contents → result ≡ 0
        → IsDone contents (task_for words) (O.held out.old) (O.held out.new) (E.held err.old) (E.held err.new) }
{
    match settle(words) {
        Ok(task) => run_task(rt, alloc, shelf, task, out, err, gate),
        Err(usage) => refuse(err, &usage),
    }
}

// Does a task, and answers the status.
fn run_task<R: Threads + Wait + Sync, S: Shelf + Send + Sync, O: Sink, E: Sink, G: Gate + Sync>(
    rt: &R,
    alloc: Global,
    shelf: &mut S,
    task: Task,
    out: &mut O,
    err: &mut E,
    gate: &G,
) -> u8
    requires job { CanDo task.job }
    requires names { CanTakeNames task.job task.names }
    requires shelf_failures { S.failures shelf.old < 2 ^ 63 }
    requires out_failures { O.failures out.old < 2 ^ 63 }
    requires err_failures { E.failures err.old < 2 ^ 63 }
    ensures { DoesTask task
        (io_state S.Shelf O.Sink E.Sink shelf.old out.old err.old)
        (io_state S.Shelf O.Sink E.Sink shelf.new out.new err.new) result }
{
    let Task { job, names } = task;
    match names {
        Names::Files(files) => run_over_files(rt, alloc, shelf, &job, files, out, err, gate),
        Names::InList(list) => run_in_list(rt, alloc, shelf, &job, list.as_str(), out, err, gate),
    }
}

// Does a job over files, or over standard input where there are none, and answers the status.
fn run_over_files<
    R: Threads + Wait + Sync,
    S: Shelf + Send + Sync,
    O: Sink,
    E: Sink,
    G: Gate + Sync,
>(
    rt: &R,
    alloc: Global,
    shelf: &mut S,
    job: &Job,
    files: Vec<String>,
    out: &mut O,
    err: &mut E,
    gate: &G,
) -> u8
    requires job { CanDo job.now }
    requires files { CanTake job.now (operands_of files.items) }
    requires shelf_failures { S.failures shelf.old < 2 ^ 63 }
    requires out_failures { O.failures out.old < 2 ^ 63 }
    requires err_failures { E.failures err.old < 2 ^ 63 }
    ensures { DoesJob job.now (operands_of files.items)
        (io_state S.Shelf O.Sink E.Sink shelf.old out.old err.old)
        (io_state S.Shelf O.Sink E.Sink shelf.new out.new err.new) result }
{
    match names_of(alloc, files) {
        Ok(names) => {
            let operands = Operands::given(names.as_slice());
            run_job(rt, alloc, shelf, job, operands, out, err, gate)
        }
        Err(AllocError) => fail(err, RunFault::Memory),
    }
}

// The names that are read: the files, or standard input where there are none.
fn names_of(alloc: Global, files: Vec<String>) -> Result<Vec<String>, AllocError>
    ensures { IfOk result (λ names. map string_bytes names.items ≡ names_of (map string_bytes files.items)) }
{
    if !files.is_empty() {
        return Ok(files);
    }
    let mut names = Vec::new(alloc);
    names.push(String::from_str(alloc, INPUT_NAME)?)?;
    Ok(names)
}
