//! The run that writes the digest of each name.

ghost use Rattle.std.specs.Prelude.{◌≡◌, ◌+◌, ◌-◌, ◌^◌, ◌<◌, ◌≤◌, List, All, Ok, Some, true, map, length, IfOk, IfErr, if◌then◌else◌};
ghost use Rattle.b3_io.specs.Contents.{Contents};
ghost use Rattle.b3_io.specs.Faults.{is_write_fault};
ghost use Rattle.b3_check.specs.Laws.{AsksDigests, File, HasLine, IsThere, OperandIsRight, Writes, WritesRightly, sums_of};
ghost use Rattle.b3_io.specs.Operands.{operands_left};
ghost use Rattle.b3_io.specs.Operands.Operand.{Text};
ghost use Rattle.b3_io.specs.Options.{CanRun, limits_of};
ghost use Rattle.b3_io.specs.Reading.{FindsMode};
ghost use Rattle.b3_devices.specs.Devices.{loans, io_state_of};
ghost use Rattle.b3_io.specs.Runs.{CanCount, Ran, RanSurely, Runs, Stopped, io_state};
ghost use Rattle.b3_io.specs.Scripts.{nothing};
ghost use Rattle.b3_io.specs.Sums.{keys_asked, sum_script};
ghost use Rattle.b3_io.specs.Tallies.{status_of};
ghost use Rattle.b3_io.specs.Tasks.{tasks_script};
ghost use Rattle.b3_io.specs.declared.options.Form.TheVariants.{Raw};

use crate::engine::Engine;
use b3_board::Gate;
use b3_core::Mode;
use b3_devices::Devices;
use b3_hash::derive_mode;
use b3_io::{
    Item, KeyChoice, Names, Operands, OutputRange, Pool, RunFault, Shelf, Sink, SumOptions, Tally,
    WorkItems,
};
use std::alloc::Global;
use std::sync::Wait;
use std::thread::Threads;

/// Writes the digest of each operand to `out`, and to `err` a complaint for each that has none, and
/// answers how many are ok and how many failed.
///
/// A digest is `length` bytes of the output from byte `seek` on (BLAKE3 (2020), 2.6). With the key
/// `Keyed` the name `-` is read first, at most 33 bytes of it. A run fault ends the run.
pub fn run_sum<R: Threads + Wait + Sync, S: Shelf + Send + Sync, O: Sink, E: Sink, G: Gate + Sync>(
    rt: &R,
    alloc: Global,
    shelf: &mut S,
    operands: Operands<'_>,
    out: &mut O,
    err: &mut E,
    options: &SumOptions,
    gate: &G,
) -> Result<Tally, RunFault>
    requires options { CanRun options.now }
    requires operands { length (operands_left operands) ≤ 2 ^ 30 }
    requires raw { options.now.form ≡ Raw → length (operands_left operands) ≤ 1 }
    requires shelf_failures { S.failures shelf.old < 2 ^ 63 }
    requires out_failures { O.failures out.old < 2 ^ 63 }
    requires err_failures { E.failures err.old < 2 ^ 63 }

    // The texts and the tally are those of one list of answers, in which as many names were not read as
    // the shelf's count rose.
    ensures ok { IfOk result (λ tally. Ran (sum_script options.now (operands_left operands.entry))
        (io_state S.Shelf O.Sink E.Sink shelf.old out.old err.old)
        (io_state S.Shelf O.Sink E.Sink shelf.new out.new err.new) tally) }

    // Over a shelf that fails nowhere else they are those of the contents.
    ensures sure { IfOk result (λ tally. RanSurely (sum_script options.now (operands_left operands.entry))
        (io_state S.Shelf O.Sink E.Sink shelf.old out.old err.old)
        (io_state S.Shelf O.Sink E.Sink shelf.new out.new err.new) tally) }

    // Of files that are known it writes the line of each, or its digest, in order.
    ensures sums { (contents : Contents) (files : List File)
        → S.told shelf.old ≡ Some contents → S.is_sure shelf.old ≡ true
        → AsksDigests options.now → operands_left operands.entry ≡ map (λ file. Text file.name) files
        → All (IsThere contents) files → IfOk result (λ tally. Writes (sums_of options.now.form files)
        (O.held out.old) (O.held out.new) (E.held err.old) (E.held err.new) (Ok tally)) }

    // At a fault both sinks gained beginnings of the texts so far, and the fault has its cause.
    ensures fault { IfErr result (λ fault.
        Stopped (limits_of options.now) (sum_script options.now (operands_left operands.entry))
        (io_state S.Shelf O.Sink E.Sink shelf.old out.old err.old)
        (io_state S.Shelf O.Sink E.Sink shelf.new out.new err.new) fault) }

    // Over a shelf that tells its contents, whatever fails: each operand has the line of its content's digest, or a
    // complaint in its place, and no more is written; at a fault a beginning of that.
    ensures right { (contents : Contents) → S.told shelf.old ≡ Some contents
        → WritesRightly (OperandIsRight contents options.now) (λ _. nothing) (operands_left operands.entry)
        (O.held out.old) (O.held out.new) (E.held err.old) (E.held err.new) result }

    // Where the status is 0 each operand has its line.
    ensures all_written { (contents : Contents) → S.told shelf.old ≡ Some contents
        → IfOk result (λ tally. status_of tally ≡ 0
        → WritesRightly (HasLine contents options.now) (λ _. nothing) (operands_left operands.entry)
        (O.held out.old) (O.held out.new) (E.held err.old) (E.held err.new) (Ok tally)) }

    ensures write_fault { O.failures out.new + E.failures err.new
        ≡ O.failures out.old + E.failures err.old + (if is_write_fault result then 1 else 0) }
    ensures out_count { O.failures out.old ≤ O.failures out.new }
    ensures err_count { E.failures err.old ≤ E.failures err.new }
    ensures shelf_count { S.failures shelf.new
        ≤ S.failures shelf.old + keys_asked options.now.key + length (operands_left operands.entry) }
    ensures told { S.told shelf.new ≡ S.told shelf.old }
    ensures still_sure { S.is_sure shelf.new ≡ S.is_sure shelf.old }
{
    let pool = Pool {
        rt,
        alloc,
        workers: options.workers,
        gate,
    };
    let mut devices = Devices { shelf, out, err };
    sum_names(alloc, pool, &mut devices, operands, options)
}

// Writes the digest of each operand.
fn sum_names<R: Threads + Wait + Sync, G: Gate + Sync, S: Shelf + Send + Sync, O: Sink, E: Sink>(
    alloc: Global,
    pool: Pool<'_, R, G>,
    devices: &mut Devices<'_, '_, '_, S, O, E>,
    operands: Operands<'_>,
    options: &SumOptions,
) -> Result<Tally, RunFault>
    requires options { CanRun options.now }
    requires operands { length (operands_left operands) ≤ 2 ^ 30 }
    requires countable { CanCount (io_state_of S.Shelf O.Sink E.Sink devices.old)
        (1 + length (operands_left operands)) }
    ensures run { Runs (limits_of options.now) (sum_script options.now (operands_left operands.entry))
        (io_state_of S.Shelf O.Sink E.Sink devices.old) (io_state_of S.Shelf O.Sink E.Sink devices.new) result }
    ensures sure { IfOk result (λ tally. RanSurely (sum_script options.now (operands_left operands.entry))
        (io_state_of S.Shelf O.Sink E.Sink devices.old) (io_state_of S.Shelf O.Sink E.Sink devices.new) tally) }
    ensures shelf_count { S.failures devices.new.shelf.now
        ≤ S.failures devices.old.shelf.now + keys_asked options.now.key + length (operands_left operands.entry) }
    ensures loans { loans devices.new ≡ loans devices.old }
{
    let mode = find_mode(devices, &options.key)?;
    let range = OutputRange {
        mode,
        seek: options.seek,
        length: options.length,
    };
    let mut engine = Engine::new(alloc, pool, range, options.limits())?;
    let mut work = Names {
        alloc,
        form: options.form,
        operands,
    };
    do_names(&mut engine, devices, &mut work)
}

// Writes the digest of each name. The call of the engine stands alone, over names that are lent: beside names that are
// owned its proof is dear.
fn do_names<'p, R: Threads + Wait + Sync, G: Gate + Sync, S: Shelf + Send + Sync, O: Sink, E: Sink>(
    engine: &mut Engine<'_, R, G>,
    devices: &mut Devices<'_, '_, '_, S, O, E>,
    names: &mut Names<'p>,
) -> Result<Tally, RunFault>
    requires few { length (⟦<Names<'p> as WorkItems<Item<'p>>>⟧.left names.old) < 2 ^ 63 }
    requires countable { CanCount (io_state_of S.Shelf O.Sink E.Sink devices.old)
        (length (⟦<Names<'p> as WorkItems<Item<'p>>>⟧.left names.old)) }
    ensures run { Runs engine.old.limits
        (tasks_script engine.old.digester.range (⟦<Names<'p> as WorkItems<Item<'p>>>⟧.left names.old))
        (io_state_of S.Shelf O.Sink E.Sink devices.old) (io_state_of S.Shelf O.Sink E.Sink devices.new) result }
    ensures shelf_count { S.failures devices.new.shelf.now
        ≤ S.failures devices.old.shelf.now + length (⟦<Names<'p> as WorkItems<Item<'p>>>⟧.left names.old) }
    ensures loans { loans devices.new ≡ loans devices.old }
{
    engine.run(devices, names)
}

// The mode of a choice of key, which may have to be read.
fn find_mode<S: Shelf + Send + Sync, O: Sink, E: Sink>(
    devices: &mut Devices<'_, '_, '_, S, O, E>,
    key: &KeyChoice,
) -> Result<Mode, RunFault>
    requires { CanCount (io_state_of S.Shelf O.Sink E.Sink devices.old) 1 }
    ensures found { FindsMode key.now
        (io_state_of S.Shelf O.Sink E.Sink devices.old) (io_state_of S.Shelf O.Sink E.Sink devices.new) result }
    ensures loans { loans devices.new ≡ loans devices.old }
{
    match key {
        KeyChoice::Plain => Ok(Mode::hash()),
        KeyChoice::Derive(context) => Ok(derive_mode(context.as_str())),
        KeyChoice::Keyed => match devices.read_key() {
            Ok(read) => read.mode(),
            Err(_) => Err(RunFault::ReadFault),
        },
    }
}
