//! A call of the program, from its arguments to its status.

ghost use Rattle.std.specs.Prelude.{◌≡◌, ◌^◌, ◌<◌, ◌&&◌, false, IfErr, IfOk};
ghost use Rattle.std.specs.Process.{exit_status};
ghost use Rattle.b3_io.specs.Runs.{io_state};
ghost use Rattle.b3_files.specs.Files.{contents_with, rest_of, told_if};
ghost use Rattle.b3_call.specs.Calls.{AreWordsOf, CallsWith, EndsCall, IsStopOf, texts_in};

use crate::run::run_words;
use b3_arguments::read_words;
use b3_board::Gate;
use b3_check::{Shelf, Sink};
use b3_files::{ClearingSink, CountingShelf, Disk, FileShelf, Input, OutputSink};
use b3_program::{Stop, Words};
use b3_progress::Progress;
use std::alloc::Global;
use std::io::{self, IsTerminal, Write};
use std::process::ExitCode;
use std::rt::{Clock, Stderr, Stdout};
use std::sync::Wait;
use std::thread::Threads;

/// Standard output alone: so that no other stream is handed over for it.
pub trait StandardOutput {}

impl StandardOutput for Stdout {}

/// Standard error alone.
pub trait StandardError {}

impl StandardError for Stderr {}

/// What a call leaves: its status, and its outputs with what was written.
#[derive(Drop)]
pub struct Called<O, E> {
    pub status: u8,
    pub out: O,
    pub err: E,
}

impl<O, E> Called<O, E> {
    /// The code that ends the program with the status of the call.
    pub fn exit_code(&self) -> ExitCode
        ensures code { exit_status result ≡ self.now.status }
    {
        ExitCode::from(self.status)
    }
}

/// Does what the arguments of a call ask for, over a disk, an input and two outputs.
///
/// The line of progress goes through a second handle of standard error: the outputs hold what is said, and no line.
pub fn call_with<
    R: Threads + Wait + Clock + Sync,
    D: Disk + Drop + Send + Sync,
    I: Input + Send + Sync,
    O: Write + IsTerminal + StandardOutput,
    E: Write + IsTerminal + StandardError + Copy + Send,
    G: Gate + Sync,
>(
    rt: &R,
    alloc: Global,
    arguments: io::Result<Vec<String>>,
    disk: D,
    input: I,
    out: O,
    err: E,
    gate: &G,
) -> Called<O, E>
where
    D::File: Send + Sync,
    I::File: Send + Sync,
    ensures { CallsWith (texts_in arguments)
        (told_if (D.File.tells && I.tells && I.File.tells)
        (contents_with (D.contents disk) (rest_of I.content I.position input)))
        (O.contents out) (E.contents err) (O.contents result.out) (E.contents result.err) result.status }
{
    let shelf = FileShelf::new(disk, input);
    call_over(rt, alloc, arguments, shelf, out, err, gate)
}

// The same over a shelf, of which nothing was asked.
fn call_over<
    R: Threads + Wait + Clock + Sync,
    S: Shelf + Drop + Send + Sync,
    O: Write + IsTerminal,
    E: Write + IsTerminal + Copy + Send,
    G: Gate + Sync,
>(
    rt: &R,
    alloc: Global,
    arguments: io::Result<Vec<String>>,
    shelf: S,
    out: O,
    err: E,
    gate: &G,
) -> Called<O, E>
    requires failures { S.failures shelf ≡ 0 }
    requires not_sure { S.is_sure shelf ≡ false }
    ensures { CallsWith (texts_in arguments) (S.told shelf) (O.contents out) (E.contents err)
        (O.contents result.out) (E.contents result.err) result.status }
{
    // Over a terminal each line is seen as soon as it is due.
    let is_gathering = !out.is_terminal();
    let is_terminal = err.is_terminal();
    let progress = Progress::new(alloc, rt, err, is_terminal);
    let out = OutputSink::new(out).gathering(is_gathering);
    let err = OutputSink::new(err);
    let called = call_beside(
        rt,
        alloc,
        arguments,
        shelf,
        out,
        err,
        is_terminal,
        gate,
        &progress,
    );
    progress.clear(rt);
    Called {
        status: called.status,
        out: called.out.into_writer(),
        err: called.err.into_writer(),
    }
}

// The same over two sinks also, of which none has failed, beside a line of progress. What the first says may wait unless it
// goes to a terminal; `is_terminal` tells whether the second does.
fn call_beside<
    R: Threads + Wait + Sync,
    S: Shelf + Drop + Send + Sync,
    O: Sink,
    E: Sink,
    G: Gate + Sync,
    C: Clock + Sync,
    W: Write + Send,
>(
    rt: &R,
    alloc: Global,
    arguments: io::Result<Vec<String>>,
    shelf: S,
    out: O,
    err: E,
    is_terminal: bool,
    gate: &G,
    progress: &Progress<C, W>,
) -> Called<O, E>
    requires shelf_failures { S.failures shelf ≡ 0 }
    requires not_sure { S.is_sure shelf ≡ false }
    requires out_failures { O.failures out ≡ 0 }
    requires err_failures { E.failures err ≡ 0 }
    ensures { CallsWith (texts_in arguments) (S.told shelf) (O.held out) (E.held err)
        (O.held result.out) (E.held result.err) result.status }
{
    let is_gathering = out.may_wait();
    let mut shelf = CountingShelf::new(alloc, shelf, progress);
    let mut out = ClearingSink::new(rt, out, !is_gathering, progress);
    let mut err = ClearingSink::new(rt, err, is_terminal, progress);
    let status = run_call(
        rt, alloc, arguments, &mut shelf, &mut out, &mut err, gate, progress,
    );
    Called {
        status,
        out: out.into_inner(),
        err: err.into_inner(),
    }
}

/// Does what the arguments of a call ask for, and answers the status of the program. Where they ask for it, progress is
/// shown from then on.
pub fn run_call<
    R: Threads + Wait + Sync,
    S: Shelf + Send + Sync,
    O: Sink,
    E: Sink,
    G: Gate + Sync,
    C: Clock,
    W: Write,
>(
    rt: &R,
    alloc: Global,
    arguments: io::Result<Vec<String>>,
    shelf: &mut S,
    out: &mut O,
    err: &mut E,
    gate: &G,
    progress: &Progress<C, W>,
) -> u8
    requires shelf_failures { S.failures shelf.old < 2 ^ 63 }
    requires out_failures { O.failures out.old < 2 ^ 63 }
    requires err_failures { E.failures err.old < 2 ^ 63 }
    ensures { EndsCall (texts_in arguments)
        (io_state S.Shelf O.Sink E.Sink shelf.old out.old err.old)
        (io_state S.Shelf O.Sink E.Sink shelf.new out.new err.new) result }
{
    match read_arguments(alloc, arguments) {
        Ok(words) => {
            progress.show_if(words.wants_progress());
            run_words(rt, alloc, shelf, words, out, err, gate)
        }
        Err(stop) => stop.say(out, err),
    }
}

// The words of the arguments, of which the first is the program's own name.
fn read_arguments(alloc: Global, arguments: io::Result<Vec<String>>) -> Result<Words, Stop>
    ensures words { IfOk result (AreWordsOf (texts_in arguments)) }
    ensures stop { IfErr result (IsStopOf (texts_in arguments)) }
{
    let arguments = arguments?;
    read_words(alloc, arguments.as_slice())
}
