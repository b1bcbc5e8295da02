//! The loop over the items of a run: sums and checks go through it.

ghost use Rattle.std.specs.Prelude.{◌≡◌, ℕ, ◌+◌, ◌*◌, ◌-◌, ◌^◌, ◌<◌, ◌≤◌, ◌∷◌, List, true, length, vec_len, IfErr, IfOk, IfSome, OnOk};
ghost use Rattle.std.specs.Arc.{arc_value};
ghost use Rattle.b3_devices.specs.Devices.{loans, io_state_of};
ghost use Rattle.b3_crew.specs.Crews.{IsLed, IsUnderWay, SoFar};
ghost use Rattle.b3_io.specs.Owing.{SaysOwing};
ghost use Rattle.b3_io.specs.Runs.{CanCount, Runs, Stopped};
ghost use Rattle.b3_io.specs.declared.items.Item.{Item};
ghost use Rattle.b3_io.specs.Tallies.{tally_sum};
ghost use Rattle.b3_io.specs.Tasks.{Task, counted, report_of, task_of, tasks_script};

use b3_board::Gate;
use b3_crew::{
    Ahead, Crew, Entry, Front, NameHasher, RunInput, Shown, Site, name_hashers, run_crew,
};
use b3_devices::{Devices, Digester};
use b3_io::{
    AnyItem, Item, Limits, Message, OutputRange, Pool, READ_LEN, RunFault, Saying, Shelf, Sink,
    Tally, WorkItems,
};
use std::alloc::{AllocError, Global};
use std::marker::Brand;
use std::sync::Wait;
use std::thread::Threads;

/// How many items are taken before helpers start.
const FIRST_ITEMS: usize = 128;

/// How many items are taken at most while a crew works, and before it is left for an item that needs its turn.
const MAX_ITEMS: usize = 1_024;

const MAX_LAST_ITEMS: usize = 4_096;

/// How many bytes are to be said of them at most, about.
const MAX_SAID_LEN: usize = 1 << 22;

/// How many bytes a content may have that is hashed beside others. One worker reads a longer one for too long.
const MAX_CONCURRENT_LEN: u64 = 1 << 25;

/// The same where there are few items for each worker, so that some would have nothing to do meanwhile.
const MAX_CONCURRENT_LEN_OF_FEW: u64 = 1 << 21;

/// Does work items. It reads, hashes, writes and counts, item after item.
#[derive(Drop)]
pub struct Engine<'c, R, G> {
    alloc: Global,
    pool: Pool<'c, R, G>,
    // the main thread's own, and one for each helper
    name_hasher: NameHasher,
    helpers: Vec<NameHasher>,
    digester: Digester,
    limits: Limits,
    ghost some_turns: { 0 < limits.turns },
    ghost turns: { limits.turns ≤ 2 ^ 40 },
}

impl<'c, R: Threads + Wait + Sync, G: Gate + Sync> Engine<'c, R, G> {
    /// One that has done nothing. It takes the memory for what is read in order here.
    pub fn new(
        alloc: Global,
        pool: Pool<'c, R, G>,
        range: OutputRange,
        limits: Limits,
    ) -> Result<Engine<'c, R, G>, AllocError>
        requires in_output { range.seek + range.length ≤ 2 ^ 64 - 1 }
        requires some_turns { 0 < limits.turns }
        requires turns { limits.turns ≤ 2 ^ 40 }
        ensures range { IfOk result (λ engine. engine.digester.range ≡ range) }
        ensures limits { IfOk result (λ engine. engine.limits ≡ limits) }
    {
        let helpers = name_hashers(alloc, pool.workers as usize - 1)?;
        Ok(Engine {
            alloc,
            pool,
            name_hasher: NameHasher::new(alloc),
            helpers,
            digester: Digester::new(alloc, range)?,
            limits,
        })
    }

    /// Does the work items, one after the other.
    pub fn run<'p, S: Shelf + Send + Sync, O: Sink, E: Sink, P: WorkItems<Item<'p>>>(
        &mut self,
        devices: &mut Devices<'_, '_, '_, S, O, E>,
        work: &mut P,
    ) -> Result<Tally, RunFault>
        requires fits { P.fits work.old self.old.digester.range.length ≡ true }
        requires few { length (P.left work.old) < 2 ^ 63 }
        requires countable { CanCount (io_state_of S.Shelf O.Sink E.Sink devices.old) (length (P.left work.old)) }
        ensures run { Runs self.old.limits (tasks_script self.old.digester.range (P.left work.old))
            (io_state_of S.Shelf O.Sink E.Sink devices.old) (io_state_of S.Shelf O.Sink E.Sink devices.new) result }
        ensures count { IfOk result (λ tally. counted tally ≤ 2 * length (P.left work.old)) }
        ensures shelf_count { S.failures devices.new.shelf.now
            ≤ S.failures devices.old.shelf.now + length (P.left work.old) }
        ensures loans { loans devices.new ≡ loans devices.old }
        ensures limits { self.new.limits ≡ self.old.limits }
        ensures range { self.new.digester.range ≡ self.old.digester.range }
    {
        self.run_items(devices, work)
    }

    // The same, whatever the items are.
    fn run_items<
        I: AnyItem + Send + Sync,
        S: Shelf + Send + Sync,
        O: Sink,
        E: Sink,
        P: WorkItems<I>,
    >(
        &mut self,
        devices: &mut Devices<'_, '_, '_, S, O, E>,
        work: &mut P,
    ) -> Result<Tally, RunFault>
        requires fits { P.fits work.old self.old.digester.range.length ≡ true }
        requires few { length (P.left work.old) < 2 ^ 63 }
        requires countable { CanCount (io_state_of S.Shelf O.Sink E.Sink devices.old) (length (P.left work.old)) }
        ensures run { Runs self.old.limits (tasks_script self.old.digester.range (P.left work.old))
            (io_state_of S.Shelf O.Sink E.Sink devices.old) (io_state_of S.Shelf O.Sink E.Sink devices.new) result }
        ensures count { IfOk result (λ tally. counted tally ≤ 2 * length (P.left work.old)) }
        ensures shelf_count { S.failures devices.new.shelf.now
            ≤ S.failures devices.old.shelf.now + length (P.left work.old) }
        ensures loans { loans devices.new ≡ loans devices.old }
        ensures limits { self.new.limits ≡ self.old.limits }
        ensures range { self.new.digester.range ≡ self.old.digester.range }
    {
        // The proof of this call picks where the run begins, its range and its tasks for those that `Brand` names.
        self.run_as::<Brand, I, S, O, E, P>(devices, work)
    }

    // The same, where a type names what the run is over.
    fn run_as<
        L: RunInput + Send + Sync,
        I: AnyItem + Send + Sync,
        S: Shelf + Send + Sync,
        O: Sink,
        E: Sink,
        P: WorkItems<I>,
    >(
        &mut self,
        devices: &mut Devices<'_, '_, '_, S, O, E>,
        work: &mut P,
    ) -> Result<Tally, RunFault>
        requires start { L.start ≡ io_state_of S.Shelf O.Sink E.Sink devices.old }
        requires range { L.range ≡ self.old.digester.range }
        requires tasks { L.tasks ≡ P.left work.old }
        requires fits { P.fits work.old L.range.length ≡ true }
        requires few { length L.tasks < 2 ^ 63 }
        requires countable { CanCount L.start (length L.tasks) }
        ensures run { Runs self.old.limits (tasks_script L.range L.tasks) L.start
            (io_state_of S.Shelf O.Sink E.Sink devices.new) result }
        ensures count { IfOk result (λ tally. counted tally ≤ 2 * length L.tasks) }
        ensures shelf_count { S.failures devices.new.shelf.now ≤ L.start.failures + length L.tasks }
        ensures loans { loans devices.new ≡ loans devices.old }
        ensures limits { self.new.limits ≡ self.old.limits }
        ensures range { self.new.digester.range ≡ self.old.digester.range }
    {
        let mut saying = Saying::new(self.alloc);
        let mut ahead = Ahead::<I, L>::new(self.alloc);
        let crew = Crew::<I, L>::new(self.alloc);
        expect_names(&*devices.shelf, work);
        self.do_items(&crew, devices, &mut ahead, work, &mut saying)
    }

    // Does the items that need their turn, and says what is known of the others, to the end. What a run owns is lent to it.
    fn do_items<
        L: RunInput + Send + Sync,
        I: AnyItem + Send + Sync,
        S: Shelf + Send + Sync,
        O: Sink,
        E: Sink,
        P: WorkItems<I>,
    >(
        &mut self,
        crew: &Crew<I, L>,
        devices: &mut Devices<'_, '_, '_, S, O, E>,
        ahead: &mut Ahead<I, L>,
        work: &mut P,
        saying: &mut Saying,
    ) -> Result<Tally, RunFault>
        requires range { L.range ≡ self.old.digester.range }
        requires counted { saying.old.uncounted ≡ 0 }
        requires before { IsUnderWay L.range L.tasks L.start (P.left work.old) (P.fits work.old L.range.length)
            ahead.old (io_state_of S.Shelf O.Sink E.Sink devices.old) saying.old }
        ensures run { Runs self.old.limits (tasks_script L.range L.tasks) L.start
            (io_state_of S.Shelf O.Sink E.Sink devices.new) result }
        ensures count { IfOk result (λ tally. counted tally ≤ 2 * length L.tasks) }
        ensures shelf_count { S.failures devices.new.shelf.now ≤ L.start.failures + length L.tasks }
        ensures loans { loans devices.new ≡ loans devices.old }
        ensures limits { self.new.limits ≡ self.old.limits }
        ensures range { self.new.digester.range ≡ self.old.digester.range }
    {
        'turns: while let Some(entry) = self.next_in_turn(crew, devices, ahead, work, saying)? {
            self.do_in_turn(devices, &*entry, &mut saying.lines, &mut saying.tally)?;
        }
        devices.write_lines(saying.lines.as_slice())?;
        Ok(saying.tally)
    }

    // The next item that needs its turn; what is known of those before it is said.
    fn next_in_turn<
        L: RunInput + Send + Sync,
        I: AnyItem + Send + Sync,
        S: Shelf + Send + Sync,
        O: Sink,
        E: Sink,
        P: WorkItems<I>,
    >(
        &mut self,
        crew: &Crew<I, L>,
        devices: &mut Devices<'_, '_, '_, S, O, E>,
        ahead: &mut Ahead<I, L>,
        work: &mut P,
        saying: &mut Saying,
    ) -> Result<Option<Shown<I, L>>, RunFault>
        requires told { S.told devices.old.shelf.now ≡ L.start.told }
        requires sure { S.is_sure devices.old.shelf.now ≡ L.start.sure }
        requires range { L.range ≡ self.old.digester.range }
        requires counted { saying.old.uncounted ≡ 0 }
        requires before { IsUnderWay L.range L.tasks L.start (P.left work.old) (P.fits work.old L.range.length)
            ahead.old (io_state_of S.Shelf O.Sink E.Sink devices.old) saying.old }
        ensures led { IsLed L.range L.tasks L.start (P.left work.new) (P.fits work.new L.range.length)
            ahead.new (io_state_of S.Shelf O.Sink E.Sink devices.new) saying.new (λ entry. (arc_value {X = ℕ × Item} entry).1) result }
        ensures counted { saying.new.uncounted ≡ 0 }
        ensures turn { IfOk result (λ came. IfSome came (λ _. ahead.old.next < ahead.new.next)) }
        ensures loans { loans devices.new ≡ loans devices.old }
        ensures limits { self.new.limits ≡ self.old.limits }
        ensures same_range { self.new.digester.range ≡ self.old.digester.range }
    {
        let workers = self.pool.workers as usize;
        let window = window_of(self.digester.range().length, workers, MAX_ITEMS);
        ahead.take_items(work, FIRST_ITEMS.min(window))?;
        if ahead.len() < 2 && !ahead.is_settled() {
            return Ok(ahead.pop());
        }
        let led = self.lead_crew(crew, devices, ahead, work, saying);
        devices.shelf.count_failures(saying.uncounted);
        saying.uncounted = 0;
        led
    }

    // The same beside helpers, if there is more than one worker, where there is more than one item, or it is known what is to
    // be said of one.
    fn lead_crew<
        L: RunInput + Send + Sync,
        I: AnyItem + Send + Sync,
        S: Shelf + Send + Sync,
        O: Sink,
        E: Sink,
        P: WorkItems<I>,
    >(
        &mut self,
        crew: &Crew<I, L>,
        devices: &mut Devices<'_, '_, '_, S, O, E>,
        ahead: &mut Ahead<I, L>,
        work: &mut P,
        saying: &mut Saying,
    ) -> Result<Option<Shown<I, L>>, RunFault>
        requires told { S.told devices.old.shelf.now ≡ L.start.told }
        requires sure { S.is_sure devices.old.shelf.now ≡ L.start.sure }
        requires range { L.range ≡ self.old.digester.range }
        requires before { IsUnderWay L.range L.tasks L.start (P.left work.old) (P.fits work.old L.range.length)
            ahead.old (io_state_of S.Shelf O.Sink E.Sink devices.old) saying.old }
        ensures led { IsLed L.range L.tasks L.start (P.left work.new) (P.fits work.new L.range.length)
            ahead.new (io_state_of S.Shelf O.Sink E.Sink devices.new) saying.new (λ entry. (arc_value {X = ℕ × Item} entry).1) result }
        ensures turn { IfOk result (λ came. IfSome came (λ _. ahead.old.next < ahead.new.next)) }
        ensures shelf { devices.new.shelf.now ≡ devices.old.shelf.now }
        ensures loans { loans devices.new ≡ loans devices.old }
        ensures limits { self.new.limits ≡ self.old.limits }
        ensures same_range { self.new.digester.range ≡ self.old.digester.range }
    {
        let range = self.digester.range();
        let helpers = self.helpers.len().min(ahead.len().saturating_sub(1).max(1));
        let workers = helpers + 1;
        let site = Site {
            rt: self.pool.rt,
            crew,
            shelf: &*devices.shelf,
            range,
            max_len: max_len_of(self.limits, ahead.len() / 2 < workers),
            window: window_of(range.length, workers, MAX_ITEMS),
            last_window: window_of(range.length, workers, MAX_LAST_ITEMS),
        };
        run_crew(
            &site,
            &mut self.name_hasher,
            &mut self.helpers.as_mut_slice()[..helpers],
            ahead,
            work,
            devices.out,
            devices.err,
            saying,
        )
    }

    // Says what is to be said of an item that is done in its turn.
    fn do_in_turn<L: RunInput, I: AnyItem, S: Shelf + Send + Sync, O: Sink, E: Sink>(
        &mut self,
        devices: &mut Devices<'_, '_, '_, S, O, E>,
        entry: &Entry<I, L>,
        lines: &mut Vec<u8>,
        tally: &mut Tally,
    ) -> Result<(), RunFault>
        requires range { L.range ≡ self.old.digester.range }
        requires few { length L.tasks < 2 ^ 63 }
        requires countable { CanCount L.start (length L.tasks) }
        requires before { (left : List Task) × SoFar L.range L.tasks (task_of entry.now.1 ∷ left) L.start
            (io_state_of S.Shelf O.Sink E.Sink devices.old) lines.old.items tally.old }
        ensures so_far { OnOk result ((left : List Task)
            → SoFar L.range L.tasks (task_of entry.now.1 ∷ left) L.start (io_state_of S.Shelf O.Sink E.Sink devices.old)
            lines.old.items tally.old
            → SoFar L.range L.tasks left L.start (io_state_of S.Shelf O.Sink E.Sink devices.new)
            lines.new.items tally.new) }
        ensures stopped { IfErr result (λ fault. (left : List Task)
            → SoFar L.range L.tasks (task_of entry.now.1 ∷ left) L.start (io_state_of S.Shelf O.Sink E.Sink devices.old)
            lines.old.items tally.old
            → Stopped self.old.limits (tasks_script L.range L.tasks) L.start
            (io_state_of S.Shelf O.Sink E.Sink devices.new) fault) }
        ensures shelf_count { S.failures devices.new.shelf.now ≤ S.failures devices.old.shelf.now + 1 }
        ensures loans { loans devices.new ≡ loans devices.old }
        ensures limits { self.new.limits ≡ self.old.limits }
        ensures same_range { self.new.digester.range ≡ self.old.digester.range }
    {
        match entry.item() {
            Item::Say(message) => say(devices, message, lines, tally),
            Item::Ask(request) => {
                let message = devices.message_of(
                    &self.pool,
                    &mut self.digester,
                    request,
                    self.limits,
                )?;
                say(devices, &message, lines, tally)
            }
        }
    }
}

// Says a message, and counts it.
fn say<S: Shelf + Send + Sync, O: Sink, E: Sink>(
    devices: &mut Devices<'_, '_, '_, S, O, E>,
    message: &Message,
    lines: &mut Vec<u8>,
    tally: &mut Tally,
) -> Result<(), RunFault>
    requires countable { CanCount (io_state_of S.Shelf O.Sink E.Sink devices.old) 0 }
    requires room { counted tally.old + counted message.now.tally < 2 ^ 64 }
    ensures said { SaysOwing (report_of message.now) (io_state_of S.Shelf O.Sink E.Sink devices.old)
        (io_state_of S.Shelf O.Sink E.Sink devices.new) lines.old.items lines.new.items result }
    ensures counted { OnOk result (tally.new ≡ tally_sum tally.old message.now.tally) }
    ensures shelf_count { S.failures devices.new.shelf.now ≤ S.failures devices.old.shelf.now }
    ensures loans { loans devices.new ≡ loans devices.old }
{
    devices.say_after(lines, message, false)?;
    tally.add(&message.tally);
    Ok(())
}

// How many bytes a content may have that is hashed beside others.
fn max_len_of(limits: Limits, is_few: bool) -> u64 {
    let max_len = limits
        .turns
        .saturating_mul(READ_LEN as u64)
        .saturating_sub(1);
    max_len.min(if is_few {
        MAX_CONCURRENT_LEN_OF_FEW
    } else {
        MAX_CONCURRENT_LEN
    })
}

// How many items are taken at most, of so many, so that what is to be said of them takes some mebibytes. A digest of this
// length is written by two digits a byte.
fn window_of(length: u32, workers: usize, max_items: usize) -> usize
    requires { 0 < max_items }
    ensures { 0 < result }
{
    let len = (length as usize).saturating_mul(2).saturating_add(256);
    let least = workers.saturating_mul(2).clamp(1, max_items);
    (MAX_SAID_LEN / len).clamp(least, max_items)
}

// Tells the shelf how many names it is asked for, where it wants to know.
fn expect_names<S: Shelf, I: AnyItem, P: WorkItems<I>>(shelf: &S, work: &P) {
    if shelf.counts_names() {
        shelf.expect_names(work.count_hint());
    }
}
