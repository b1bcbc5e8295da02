//! The sum of one name over files and an input in memory: the shelf of files tells them, so that it is known what is
//! written.

ghost use Rattle.std.specs.Prelude.{◌≡◌, ◌^◌, ◌<◌, [], ◌∷◌, false, string_bytes, IfOk};
ghost use Rattle.b3_io.specs.MemorySinks.{sink_bytes};
ghost use Rattle.b3_io.specs.Sums.{is_bad_name};
ghost use Rattle.b3_files.specs.Files.{contents_with};
ghost use Rattle.b3_files.specs.MemoryDisks.{content_among};
ghost use Rattle.b3_files_tests.specs.InMemory.{IsSummed};

use b3_board::OpenGate;
use b3_check::{Form, KeyChoice, MemorySink, Operands, RunFault, Sink, SumOptions, Tally, run_sum};
use b3_files::{FileShelf, MemoryDisk, MemoryFile, NamedFile};
use std::alloc::{AllocError, Global};
use std::sync::Wait;
use std::thread::Threads;

/// Writes the line of a name to `out`, or a complaint to `err`.
pub fn sum_one<R: Threads + Wait + Sync>(
    rt: &R,
    alloc: Global,
    files: &[NamedFile<'_>],
    input: &[u8],
    name: String,
    out: &mut MemorySink,
    err: &mut MemorySink,
) -> Result<Tally, RunFault>
    requires out_failures { ⟦<MemorySink as Sink>⟧.failures out.old < 2 ^ 63 }
    requires err_failures { ⟦<MemorySink as Sink>⟧.failures err.old < 2 ^ 63 }
    ensures { is_bad_name (string_bytes name) ≡ false → IfOk result (λ tally.
        IsSummed (contents_with (content_among files.now) input.now) (string_bytes name)
        (sink_bytes out.old) (sink_bytes out.new) (sink_bytes err.old) (sink_bytes err.new)) }
{
    let mut shelf = FileShelf::new(MemoryDisk::new(files), MemoryFile::new(input));
    let names = one(alloc, name)?;
    let options = SumOptions {
        key: KeyChoice::Plain,
        seek: 0,
        length: 32,
        form: Form::Named,
        workers: 4,
        turns: 1 << 40,
        largest: 1 << 30,
    };
    run_sum(
        rt,
        alloc,
        &mut shelf,
        Operands::given(names.as_slice()),
        out,
        err,
        &options,
        &OpenGate,
    )
}

// A list of one name.
fn one(alloc: Global, name: String) -> Result<Vec<String>, AllocError>
    ensures { IfOk result (λ names. names.items ≡ name ∷ []) }
{
    let mut names = Vec::new(alloc);
    names.push(name)?;
    Ok(names)
}
