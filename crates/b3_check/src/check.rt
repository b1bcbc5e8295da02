//! The run that checks lists of check lines.

ghost use Rattle.std.specs.Prelude.{◌≡◌, ◌+◌, ◌*◌, ◌-◌, ◌^◌, ◌<◌, ◌≤◌, ℕ, List, [], ◌∷◌, All, Ok, Some, true, length, vec_len, IfOk, IfErr, if◌then◌else◌};
ghost use Rattle.std.specs.List.{AllZip};
ghost use Rattle.b3_lines.specs.Lines.{lines_of};
ghost use Rattle.b3_lines.specs.Reading.{IsReadAs};
ghost use Rattle.b3_io.specs.Checks.{Entry, check_script, entry_of, lines_script, list_operand_script, list_script, lists_script, warning_report};
ghost use Rattle.b3_io.specs.Contents.{Contents};
ghost use Rattle.b3_io.specs.Digests.{line_range};
ghost use Rattle.b3_io.specs.Faults.{is_write_fault};
ghost use Rattle.b3_check.specs.Laws.{AsksAll, File, IsThere, ListOperandIsRight, ListOperandIsVerified, Says, Writes, WritesRightly, oks_of, sums_of, verdicts_on};
ghost use Rattle.b3_io.specs.Operands.{operand_of, operands_left};
ghost use Rattle.b3_io.specs.Operands.Operand.{Text};
ghost use Rattle.b3_io.specs.Options.{CanCheck, check_limits};
ghost use Rattle.b3_devices.specs.Devices.{loans, io_state_of};
ghost use Rattle.b3_io.specs.Runs.{CanCount, Ran, RanSurely, Runs, Stopped, io_state};
ghost use Rattle.b3_io.specs.Scripts.{Report};
ghost use Rattle.b3_io.specs.Scripts.Script.{Done, Say};
ghost use Rattle.b3_io.specs.Sums.{shows_name};
ghost use Rattle.b3_io.specs.Tallies.{status_of};
ghost use Rattle.b3_io.specs.Tasks.{counted, report_of, tasks_script};
ghost use Rattle.b3_io.specs.declared.options.Form.{Form};
ghost use Rattle.b3_io.specs.declared.options.Limits.{Limits};

use crate::engine::Engine;
use b3_board::Gate;
use b3_core::Mode;
use b3_devices::Devices;
use b3_io::{
    CheckOptions, Item, ListLines, ListReader, Message, Operand, Operands, OutputRange, Pool,
    RunFault, Shelf, Sink, Tally, WorkItems,
};
use std::alloc::{AllocError, Global};
use std::sync::Wait;
use std::thread::Threads;

/// How many bytes the digest of a check line has.
const DIGEST_LEN: u32 = 32;

/// The number of the first line of each list.
const FIRST_LINE: u64 = 1;

/// Reads lists of check lines, hashes the names in them, and writes to `out` whether each has the
/// digest of its line; to `err` goes each list that cannot be read, each line that is refused, after the
/// lines of a list what is wrong with it as a whole, and at the end how many lines failed. The options say
/// which names are passed over and which texts are left out. Answers what was counted.
///
/// A list is read whole. A run fault ends the run.
pub fn run_check<
    R: Threads + Wait + Sync,
    S: Shelf + Send + Sync,
    O: Sink,
    E: Sink,
    G: Gate + Sync,
>(
    rt: &R,
    alloc: Global,
    shelf: &mut S,
    lists: Operands<'_>,
    out: &mut O,
    err: &mut E,
    options: &CheckOptions,
    gate: &G,
) -> Result<Tally, RunFault>
    requires options { CanCheck options.now }
    requires lists { length (operands_left lists) ≤ 2 ^ 30 }
    requires shelf_failures { S.failures shelf.old < 2 ^ 63 }
    requires out_failures { O.failures out.old < 2 ^ 63 }
    requires err_failures { E.failures err.old < 2 ^ 63 }

    // The texts and the tally are those of one list of answers, in which as many names were not read as
    // the shelf's count rose.
    ensures ok { IfOk result (λ tally. Ran (check_script options.now (operands_left lists.entry))
        (io_state S.Shelf O.Sink E.Sink shelf.old out.old err.old)
        (io_state S.Shelf O.Sink E.Sink shelf.new out.new err.new) tally) }

    // Over a shelf that fails nowhere else they are those of the contents.
    ensures sure { IfOk result (λ tally. RanSurely (check_script options.now (operands_left lists.entry))
        (io_state S.Shelf O.Sink E.Sink shelf.old out.old err.old)
        (io_state S.Shelf O.Sink E.Sink shelf.new out.new err.new) tally) }

    // Of a list that is known it writes the verdict on each line, where each says something, in order.
    ensures checks { (contents : Contents) (list text : List ℕ) (entries : List Entry)
        → S.told shelf.old ≡ Some contents → S.is_sure shelf.old ≡ true
        → AsksAll options.now → operands_left lists.entry ≡ Text list ∷ []
        → contents list ≡ Some text → AllZip Says (lines_of text) entries
        → IfOk result (λ tally. Writes (verdicts_on options.now contents entries)
        (O.held out.old) (O.held out.new) (E.held err.old) (E.held err.new) (Ok tally)) }

    // Of a list that a sum wrote of files that are there it writes that each is ok, in order.
    ensures sums_check { (contents : Contents) (form : Form) (list : List ℕ) (files : List File)
        → S.told shelf.old ≡ Some contents → S.is_sure shelf.old ≡ true
        → AsksAll options.now → operands_left lists.entry ≡ Text list ∷ []
        → shows_name form ≡ true → contents list ≡ Some (sums_of form files).out → All (IsThere contents) files
        → IfOk result (λ tally. Writes (oks_of files)
        (O.held out.old) (O.held out.new) (E.held err.old) (E.held err.new) (Ok tally)) }

    // A line says one entry at most.
    ensures one_entry { (line : List ℕ) (entry other : Entry) → Says line entry → Says line other → entry ≡ other }

    // What a line says is what is taken of it.
    ensures entries { (line digest name shown : List ℕ) → IsReadAs line digest name shown
        → entry_of line ≡ record { digest = digest; name = name; shown = shown } }

    // At a fault both sinks gained beginnings of the texts so far, and the fault has its cause.
    ensures fault { IfErr result (λ fault.
        Stopped (check_limits options.now) (check_script options.now (operands_left lists.entry))
        (io_state S.Shelf O.Sink E.Sink shelf.old out.old err.old)
        (io_state S.Shelf O.Sink E.Sink shelf.new out.new err.new) fault) }

    // Over a shelf that tells its contents, whatever fails: each line of each list has the right verdict, `OK` only
    // where its digest is that of the content, or is refused; at a fault a beginning of that is written.
    ensures right { (contents : Contents) → S.told shelf.old ≡ Some contents
        → WritesRightly (ListOperandIsRight contents options.now) (warning_report options.now) (operands_left lists.entry)
        (O.held out.old) (O.held out.new) (E.held err.old) (E.held err.new) result }

    // Where the status is 0 each line of each list says the digest of its name's content.
    ensures all_verified { (contents : Contents) → S.told shelf.old ≡ Some contents
        → IfOk result (λ tally. status_of tally ≡ 0
        → All (ListOperandIsVerified contents options.now) (operands_left lists.entry)) }

    ensures write_fault { O.failures out.new + E.failures err.new
        ≡ O.failures out.old + E.failures err.old + (if is_write_fault result then 1 else 0) }
    ensures out_count { O.failures out.old ≤ O.failures out.new }
    ensures err_count { E.failures err.old ≤ E.failures err.new }

    // A list has at most as many lines as it may have bytes.
    ensures shelf_count { S.failures shelf.new
        ≤ S.failures shelf.old + length (operands_left lists.entry) * (1 + options.now.largest) }
    ensures told { S.told shelf.new ≡ S.told shelf.old }
    ensures still_sure { S.is_sure shelf.new ≡ S.is_sure shelf.old }
{
    let pool = Pool {
        rt,
        alloc,
        workers: options.workers,
        gate,
    };
    let mut devices = Devices { shelf, out, err };
    check_lists(alloc, pool, &mut devices, lists, options)
}

// Checks lists, one after the other, and says how many lines failed.
fn check_lists<R: Threads + Wait + Sync, G: Gate + Sync, S: Shelf + Send + Sync, O: Sink, E: Sink>(
    alloc: Global,
    pool: Pool<'_, R, G>,
    devices: &mut Devices<'_, '_, '_, S, O, E>,
    lists: Operands<'_>,
    options: &CheckOptions,
) -> Result<Tally, RunFault>
    requires options { CanCheck options.now }
    requires lists { length (operands_left lists) ≤ 2 ^ 30 }
    requires countable { CanCount (io_state_of S.Shelf O.Sink E.Sink devices.old)
        (length (operands_left lists) * (1 + options.now.largest)) }
    ensures run { Runs (check_limits options.now) (check_script options.now (operands_left lists.entry))
        (io_state_of S.Shelf O.Sink E.Sink devices.old) (io_state_of S.Shelf O.Sink E.Sink devices.new) result }
    ensures sure { IfOk result (λ tally. RanSurely (check_script options.now (operands_left lists.entry))
        (io_state_of S.Shelf O.Sink E.Sink devices.old) (io_state_of S.Shelf O.Sink E.Sink devices.new) tally) }
    ensures shelf_count { S.failures devices.new.shelf.now
        ≤ S.failures devices.old.shelf.now + length (operands_left lists.entry) * (1 + options.now.largest) }
    ensures loans { loans devices.new ≡ loans devices.old }
{
    let tally = run_lists(alloc, pool, devices, lists, options)?;
    say(devices, Message::warning(alloc, options, &tally))?;
    Ok(tally)
}

// Checks lists alone, one after the other.
fn run_lists<R: Threads + Wait + Sync, G: Gate + Sync, S: Shelf + Send + Sync, O: Sink, E: Sink>(
    alloc: Global,
    pool: Pool<'_, R, G>,
    devices: &mut Devices<'_, '_, '_, S, O, E>,
    lists: Operands<'_>,
    options: &CheckOptions,
) -> Result<Tally, RunFault>
    requires options { CanCheck options.now }
    requires lists { length (operands_left lists) ≤ 2 ^ 30 }
    requires countable { CanCount (io_state_of S.Shelf O.Sink E.Sink devices.old)
        (length (operands_left lists) * (1 + options.now.largest)) }
    ensures run { Runs (check_limits options.now) (lists_script options.now (operands_left lists.entry))
        (io_state_of S.Shelf O.Sink E.Sink devices.old) (io_state_of S.Shelf O.Sink E.Sink devices.new) result }
    ensures shelf_count { S.failures devices.new.shelf.now
        ≤ S.failures devices.old.shelf.now + length (operands_left lists.entry) * (1 + options.now.largest) }
    ensures loans { loans devices.new ≡ loans devices.old }
{
    let mut checker = Checker::new(alloc, pool, options)?;
    checker.check_all(devices, lists)
}

/// Checks lists over the same memory.
#[derive(Drop)]
struct Checker<'c, R, G> {
    alloc: Global,
    options: CheckOptions,
    reader: ListReader,
    engine: Engine<'c, R, G>,
    ghost largest: { options.largest ≤ 2 ^ 30 },
    ghost same_limits: { engine.limits ≡ check_limits options },
    ghost range: { engine.digester.range ≡ line_range },
}

impl<'c, R: Threads + Wait + Sync, G: Gate + Sync> Checker<'c, R, G> {
    /// One that has checked nothing. It takes the memory for all reads here.
    fn new(
        alloc: Global,
        pool: Pool<'c, R, G>,
        options: &CheckOptions,
    ) -> Result<Checker<'c, R, G>, AllocError>
        requires { CanCheck options.now }
        ensures { IfOk result (λ checker. checker.options ≡ options.now) }
    {
        let range = OutputRange {
            mode: Mode::hash(),
            seek: 0,
            length: DIGEST_LEN,
        };
        Ok(Checker {
            alloc,
            options: *options,
            reader: ListReader::new(alloc)?,
            engine: Engine::new(alloc, pool, range, options.limits())?,
        })
    }

    // Checks lists, one after the other.
    fn check_all<S: Shelf + Send + Sync, O: Sink, E: Sink>(
        &mut self,
        devices: &mut Devices<'_, '_, '_, S, O, E>,
        mut lists: Operands<'_>,
    ) -> Result<Tally, RunFault>
        requires lists { length (operands_left lists) ≤ 2 ^ 30 }
        requires countable { CanCount (io_state_of S.Shelf O.Sink E.Sink devices.old)
            (length (operands_left lists) * (1 + self.old.options.largest)) }
        ensures run { Runs (check_limits self.old.options) (lists_script self.old.options (operands_left lists.entry))
            (io_state_of S.Shelf O.Sink E.Sink devices.old) (io_state_of S.Shelf O.Sink E.Sink devices.new) result }
        ensures shelf_count { S.failures devices.new.shelf.now
            ≤ S.failures devices.old.shelf.now
            + length (operands_left lists.entry) * (1 + self.old.options.largest) }
        ensures count { IfOk result (λ tally. counted tally
            ≤ 2 * (length (operands_left lists.entry) * (1 + self.old.options.largest))) }
        ensures loans { loans devices.new ≡ loans devices.old }
    {
        let mut tally = Tally::none();
        while let Some(list) = lists.next() {
            let one = self.check_operand(devices, list)?;
            tally.add(&one);
        }
        Ok(tally)
    }

    // Checks a list, or says that its name is not text.
    fn check_operand<S: Shelf + Send + Sync, O: Sink, E: Sink>(
        &mut self,
        devices: &mut Devices<'_, '_, '_, S, O, E>,
        list: Operand<'_>,
    ) -> Result<Tally, RunFault>
        requires { CanCount (io_state_of S.Shelf O.Sink E.Sink devices.old) (1 + self.old.options.largest) }
        ensures run { Runs (check_limits self.old.options)
            (list_operand_script self.old.options (operand_of list.entry))
            (io_state_of S.Shelf O.Sink E.Sink devices.old) (io_state_of S.Shelf O.Sink E.Sink devices.new) result }
        ensures count { IfOk result (λ tally. counted tally ≤ 2 * (1 + self.old.options.largest)) }
        ensures shelf_count { S.failures devices.new.shelf.now
            ≤ S.failures devices.old.shelf.now + (1 + self.old.options.largest) }
        ensures loans { loans devices.new ≡ loans devices.old }
        ensures options { self.new.options ≡ self.old.options }
    {
        match list {
            Operand::Text(name) => self.check_list(devices, name),
            Operand::NotText(names, number) => {
                say(
                    devices,
                    Message::unnamed_list(self.alloc, &self.options, names, number),
                )
            }
        }
    }

    // Reads a list, and checks its lines.
    fn check_list<S: Shelf + Send + Sync, O: Sink, E: Sink>(
        &mut self,
        devices: &mut Devices<'_, '_, '_, S, O, E>,
        name: &str,
    ) -> Result<Tally, RunFault>
        requires { CanCount (io_state_of S.Shelf O.Sink E.Sink devices.old) (1 + self.old.options.largest) }
        ensures run { Runs (check_limits self.old.options) (list_script self.old.options name.now)
            (io_state_of S.Shelf O.Sink E.Sink devices.old) (io_state_of S.Shelf O.Sink E.Sink devices.new) result }
        ensures count { IfOk result (λ tally. counted tally ≤ 2 * (1 + self.old.options.largest)) }
        ensures shelf_count { S.failures devices.new.shelf.now
            ≤ S.failures devices.old.shelf.now + (1 + self.old.options.largest) }
        ensures loans { loans devices.new ≡ loans devices.old }
        ensures options { self.new.options ≡ self.old.options }
    {
        let limits = self.options.limits();
        match devices.read_list(&mut self.reader, name, limits)? {
            Ok(()) => self.check_lines(devices, name),
            Err(_) => say(
                devices,
                Message::unread_list(self.alloc, &self.options, name),
            ),
        }
    }

    // Checks the lines of the list of this name, which was read, and says what is wrong with it as a whole.
    fn check_lines<S: Shelf + Send + Sync, O: Sink, E: Sink>(
        &mut self,
        devices: &mut Devices<'_, '_, '_, S, O, E>,
        name: &str,
    ) -> Result<Tally, RunFault>
        requires text { vec_len self.old.reader.text ≤ self.old.options.largest }
        requires countable { CanCount (io_state_of S.Shelf O.Sink E.Sink devices.old) self.old.options.largest }
        ensures run { Runs (check_limits self.old.options)
            (lines_script self.old.options name.now (Ok self.old.reader.text.items))
            (io_state_of S.Shelf O.Sink E.Sink devices.old) (io_state_of S.Shelf O.Sink E.Sink devices.new) result }
        ensures count { IfOk result (λ tally. counted tally ≤ 2 * (1 + self.old.options.largest)) }
        ensures shelf_count { S.failures devices.new.shelf.now
            ≤ S.failures devices.old.shelf.now + self.old.options.largest }
        ensures loans { loans devices.new ≡ loans devices.old }
        ensures options { self.new.options ≡ self.old.options }
    {
        let (alloc, options) = (self.alloc, self.options);
        let mut lines = ListLines::new(alloc, options, name, FIRST_LINE, self.reader.text());
        let mut tally = do_lines(&mut self.engine, devices, &mut lines)?;
        let end = say(devices, Message::list_end(alloc, &options, name, &tally))?;
        tally.add(&end);
        Ok(tally)
    }
}

// Checks the lines of a list. The call of the engine stands alone, over lines that are lent: beside lines that are
// owned its proof is dear.
fn do_lines<'p, R: Threads + Wait + Sync, G: Gate + Sync, S: Shelf + Send + Sync, O: Sink, E: Sink>(
    engine: &mut Engine<'_, R, G>,
    devices: &mut Devices<'_, '_, '_, S, O, E>,
    lines: &mut ListLines<'p>,
) -> Result<Tally, RunFault>
    requires fits { ⟦<ListLines<'p> as WorkItems<Item<'p>>>⟧.fits lines.old engine.old.digester.range.length ≡ true }
    requires few { length (⟦<ListLines<'p> as WorkItems<Item<'p>>>⟧.left lines.old) < 2 ^ 63 }
    requires countable { CanCount (io_state_of S.Shelf O.Sink E.Sink devices.old)
        (length (⟦<ListLines<'p> as WorkItems<Item<'p>>>⟧.left lines.old)) }
    ensures run { Runs engine.old.limits
        (tasks_script engine.old.digester.range (⟦<ListLines<'p> as WorkItems<Item<'p>>>⟧.left lines.old))
        (io_state_of S.Shelf O.Sink E.Sink devices.old) (io_state_of S.Shelf O.Sink E.Sink devices.new) result }
    ensures count { IfOk result (λ tally. counted tally
        ≤ 2 * length (⟦<ListLines<'p> as WorkItems<Item<'p>>>⟧.left lines.old)) }
    ensures shelf_count { S.failures devices.new.shelf.now
        ≤ S.failures devices.old.shelf.now + length (⟦<ListLines<'p> as WorkItems<Item<'p>>>⟧.left lines.old) }
    ensures loans { loans devices.new ≡ loans devices.old }
    ensures limits { engine.new.limits ≡ engine.old.limits }
    ensures range { engine.new.digester.range ≡ engine.old.digester.range }
{
    engine.run(devices, lines)
}

// Says a message, if there was memory for it, and answers what it counts.
fn say<S: Shelf + Send + Sync, O: Sink, E: Sink>(
    devices: &mut Devices<'_, '_, '_, S, O, E>,
    message: Result<Message, AllocError>,
) -> Result<Tally, RunFault>
    requires { CanCount (io_state_of S.Shelf O.Sink E.Sink devices.old) 0 }
    ensures run { (limits : Limits) (report : Report) → IfOk message (λ said. report_of said ≡ report)
        → Runs limits (Say report Done) (io_state_of S.Shelf O.Sink E.Sink devices.old)
        (io_state_of S.Shelf O.Sink E.Sink devices.new) result }
    ensures count { (most : ℕ) (report : Report) → IfOk message (λ said. report_of said ≡ report)
        → counted report.tally ≤ most → IfOk result (λ tally. counted tally ≤ most) }
    ensures shelf_count { S.failures devices.new.shelf.now ≡ S.failures devices.old.shelf.now }
    ensures loans { loans devices.new ≡ loans devices.old }
{
    let message = message?;
    devices.say(&message)?;
    Ok(message.tally)
}
