//! Runs over a shelf in memory, to sinks in memory.

ghost use Rattle.std.specs.Prelude.{◌≡◌, ◌≤◌, ◌^◌, List, All, IfOk, Some, length, map, string_bytes};
ghost use Rattle.b3_check.specs.Laws.{File, IsThere, oks_of, sums_of};
ghost use Rattle.b3_io.specs.MemoryShelves.{shelf_contents};
ghost use Rattle.b3_io.specs.MemorySinks.{sink_bytes};
ghost use Rattle.b3_io.specs.declared.options.Form.TheVariants.{Named};
ghost use Rattle.b3_laws.specs.Runs.{report_of};

use b3_board::OpenGate;
use b3_check::{
    CheckOptions, Form, KeyChoice, MemoryShelf, MemorySink, Operands, RunFault, Shelf, SumOptions,
    Tally, run_check, run_sum,
};
use std::alloc::{AllocError, Global};
use std::sync::Wait;
use std::thread::Threads;

/// What a run wrote, and what it counted.
#[derive(Debug, Drop)]
pub struct Written {
    /// The lines of a sum, or the verdicts of a check.
    pub out: Vec<u8>,
    /// The complaints, or the warning.
    pub err: Vec<u8>,
    /// What was counted.
    pub tally: Tally,
}

/// How many reads a file may take.
const TURNS: u64 = 1 << 40;

/// How many bytes a list may have.
const LARGEST: u64 = 1 << 30;

// Sums names of a shelf, by plain lines.
pub(crate) fn sum_names<R: Threads + Wait + Sync>(
    rt: &R,
    alloc: Global,
    shelf: &mut MemoryShelf,
    names: &[String],
    workers: u32,
) -> Result<Written, RunFault>
    requires some { 1 ≤ workers }
    requires few { workers ≤ 64 }
    requires names { length names.now ≤ 2 ^ 30 }
    requires fresh { ⟦<MemoryShelf as Shelf>⟧.failures shelf.old ≡ 0 }
    ensures report { (files : List File) → map string_bytes names.now ≡ map (λ file. file.name) files
        → All (IsThere (shelf_contents shelf.old)) files
        → IfOk result (λ written. report_of written ≡ sums_of Named files) }
    ensures kept { shelf_contents shelf.new ≡ shelf_contents shelf.old }
    ensures count { ⟦<MemoryShelf as Shelf>⟧.failures shelf.new ≤ 2 ^ 30 }
{
    let mut out = MemorySink::new(alloc);
    let mut err = MemorySink::new(alloc);
    let options = SumOptions {
        key: KeyChoice::Plain,
        seek: 0,
        length: 32,
        form: Form::Named,
        workers,
        turns: TURNS,
        largest: LARGEST,
    };
    let operands = Operands::given(names);
    let tally = run_sum(
        rt, alloc, shelf, operands, &mut out, &mut err, &options, &OpenGate,
    )?;
    Ok(written_to(alloc, &out, &err, tally)?)
}

// Checks the list of this name of a shelf.
pub(crate) fn check_list<R: Threads + Wait + Sync>(
    rt: &R,
    alloc: Global,
    shelf: &mut MemoryShelf,
    list: String,
    workers: u32,
) -> Result<Written, RunFault>
    requires some { 1 ≤ workers }
    requires few { workers ≤ 64 }
    requires fresh { ⟦<MemoryShelf as Shelf>⟧.failures shelf.old ≤ 2 ^ 30 }
    ensures report { (files : List File)
        → shelf_contents shelf.old (string_bytes list) ≡ Some (sums_of Named files).out
        → All (IsThere (shelf_contents shelf.old)) files
        → IfOk result (λ written. report_of written ≡ oks_of files) }
{
    let mut out = MemorySink::new(alloc);
    let mut err = MemorySink::new(alloc);
    let options = CheckOptions {
        quiet: false,
        ignore_missing: false,
        status: false,
        strict: false,
        warn: false,
        workers,
        turns: TURNS,
        largest: LARGEST,
    };
    let lists = [list];
    let operands = Operands::given(&lists);
    let tally = run_check(
        rt, alloc, shelf, operands, &mut out, &mut err, &options, &OpenGate,
    )?;
    Ok(written_to(alloc, &out, &err, tally)?)
}

// What two sinks hold, and what was counted.
fn written_to(
    alloc: Global,
    out: &MemorySink,
    err: &MemorySink,
    tally: Tally,
) -> Result<Written, AllocError>
    ensures { IfOk result (λ written.
        report_of written ≡ record { out = sink_bytes out.now; err = sink_bytes err.now; tally = tally }) }
{
    Ok(Written {
        out: Vec::from_slice(alloc, out.bytes())?,
        err: Vec::from_slice(alloc, err.bytes())?,
        tally,
    })
}
