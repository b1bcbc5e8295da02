//! A crew at work: helpers find what is to be said of items, and the main thread says it in their order.

ghost use Rattle.std.specs.Prelude.{◌≡◌, ℕ, ◌+◌, ◌-◌, ◌^◌, ◌<◌, ◌≤◌, [], true, length, IfOk, IfSome, OnOk};
ghost use Rattle.std.specs.Arc.{arc_value};
ghost use Rattle.b3_crew.specs.Crews.{IsAt, IsLed, IsSaid, IsUnderWay, tasks_ahead};
ghost use Rattle.b3_io.specs.Runs.{io_state};
ghost use Rattle.b3_io.specs.declared.items.Item.{Item};

use crate::ahead::Front;
use crate::crew::{Batch, Crew, Shown};
use crate::name_hasher::NameHasher;
use crate::run_input::RunInput;
use b3_io::{AnyItem, OutputRange, RunFault, Saying, Shelf, Sink, WorkItems, say_after};
use b3_threads::for_each_beside;
use std::alloc::AllocError;
use std::sync::Wait;
use std::thread;
use std::thread::Threads;

/// Lines are written once they have so many bytes, where they have waited for others.
const MAX_LINES_LEN: usize = 1 << 16;

/// How many items are taken at a time.
const STEP: usize = 128;

/// How many items the main thread looks at before it says again what is known, so that lines which are known go together.
/// After so many bytes it looks at no further one.
const LOOKS: usize = 16;

const LOOKS_LEN: u64 = 1 << 16;

/// The same before it leaves the crew for an item that needs its turn.
const LOOKS_BEFORE_TURN: usize = 4_096;

const LOOKS_LEN_BEFORE_TURN: u64 = 1 << 20;

/// What the threads of a crew work with: the shelf on which the names are, which bytes of their outputs are wanted, how
/// long a content may be that one thread hashes, and how many items may be taken and not done: while the crew works, and
/// before it is left.
#[derive(Drop)]
pub struct Site<'c, R, S: Shelf, I: AnyItem, L: RunInput> {
    pub rt: &'c R,
    pub crew: &'c Crew<I, L>,
    pub shelf: &'c S,
    pub range: OutputRange,
    pub max_len: u64,
    pub window: usize,
    pub last_window: usize,
    ghost some: { 0 < window },
    ghost some_last: { 0 < last_window },
    ghost told: { S.told shelf.now ≡ L.start.told },
    ghost sure: { S.is_sure shelf.now ≡ L.start.sure },
    ghost same_range: { range ≡ L.range },
    ghost in_output: { range.seek + range.length ≤ 2 ^ 64 - 1 },
}

// A helper finds what is to be said of items, until it is sent home.
fn help<R: Wait, S: Shelf, I: AnyItem, L: RunInput>(
    site: &Site<'_, R, S, I, L>,
    name_hasher: &mut NameHasher,
) {
    for _ in site.rt.forever() {
        let Some(batch) = site.crew.next_batch(site.rt) else {
            return;
        };
        help_with(site, name_hasher, &*batch);
    }
}

// It goes through a batch beside others, as long as the crew is open.
fn help_with<R: Wait, S: Shelf, I: AnyItem, L: RunInput>(
    site: &Site<'_, R, S, I, L>,
    name_hasher: &mut NameHasher,
    batch: &Batch<I, L>,
) {
    for _ in 0..batch.len() {
        if !site.crew.is_open() {
            return;
        }
        let Some(entry) = batch.take() else {
            return;
        };
        name_hasher.find(site, &**entry);
    }
}

// The main thread finds what is to be said of one item, and answers how many bytes it has hashed since the run began; nothing
// where no item is left.
fn look<R: Wait, S: Shelf, I: AnyItem, L: RunInput>(
    site: &Site<'_, R, S, I, L>,
    name_hasher: &mut NameHasher,
) -> Option<u64> {
    let batch = site.crew.batch(site.rt)?;
    if let Some(entry) = batch.take() {
        name_hasher.find(site, &**entry);
    }
    Some(name_hasher.hashed())
}

// It does so for so many items, until so many bytes are hashed, and answers whether there was any. The frame of this is 16 bytes
// more than a multiple of 32: so the vectors of the code on lanes lie, in the main thread, as where it hashes in turn.
fn look_at_some<R: Wait, S: Shelf, I: AnyItem, L: RunInput>(
    site: &Site<'_, R, S, I, L>,
    name_hasher: &mut NameHasher,
    count: usize,
    len: u64,
) -> bool {
    let before = name_hasher.hashed();
    for number in 0..count {
        let Some(hashed) = look(site, name_hasher) else {
            return number > 0;
        };
        if hashed.saturating_sub(before) >= len {
            return true;
        }
    }
    true
}

// It takes items, where there are few, and shows them to the helpers.
fn refill<R: Wait, S: Shelf, P: WorkItems<I>, I: AnyItem, L: RunInput, A: Front<I, L>>(
    site: &Site<'_, R, S, I, L>,
    ahead: &mut A,
    work: &mut P,
) -> Result<(), AllocError>
    requires at { IsAt L.tasks (tasks_ahead (A.state ahead.old) (P.left work.old)) (A.state ahead.old).next }
    requires few { length L.tasks < 2 ^ 63 }
    requires fits { P.fits work.old L.range.length ≡ true }
    ensures left { OnOk result (tasks_ahead (A.state ahead.new) (P.left work.new) ≡ tasks_ahead (A.state ahead.old) (P.left work.old)) }
    ensures next { OnOk result ((A.state ahead.new).next ≡ (A.state ahead.old).next) }
    ensures all { OnOk result ((A.state ahead.new).items ≡ [] → P.left work.new ≡ []) }
    ensures fits { OnOk result (P.fits work.new L.range.length ≡ true) }
{
    let len = ahead.len();
    if len > site.window / 2 {
        return Ok(());
    }
    ahead.take_items(work, len.saturating_add(STEP).min(site.window))?;
    ahead.show(site.rt, site.crew)
}

// It takes further items, and finds what is to be said of them too before it leaves its helpers: so a start of threads serves
// for many.
fn look_further<R: Wait, S: Shelf, P: WorkItems<I>, I: AnyItem, L: RunInput, A: Front<I, L>>(
    site: &Site<'_, R, S, I, L>,
    name_hasher: &mut NameHasher,
    ahead: &mut A,
    work: &mut P,
) -> Result<(), AllocError>
    requires at { IsAt L.tasks (tasks_ahead (A.state ahead.old) (P.left work.old)) (A.state ahead.old).next }
    requires few { length L.tasks < 2 ^ 63 }
    requires fits { P.fits work.old L.range.length ≡ true }
    ensures left { OnOk result (tasks_ahead (A.state ahead.new) (P.left work.new) ≡ tasks_ahead (A.state ahead.old) (P.left work.old)) }
    ensures next { OnOk result ((A.state ahead.new).next ≡ (A.state ahead.old).next) }
    ensures fits { OnOk result (P.fits work.new L.range.length ≡ true) }
{
    if !site.crew.is_open() {
        return Ok(());
    }
    ahead.take_items(work, site.last_window)?;
    ahead.show(site.rt, site.crew)?;
    look_at_some(site, name_hasher, LOOKS_BEFORE_TURN, LOOKS_LEN_BEFORE_TURN);
    Ok(())
}

// The main thread says what is known, item after item, until one needs its turn, which it answers, or nothing is known of
// one.
fn say_known<
    R: Wait,
    S: Shelf,
    O: Sink,
    E: Sink,
    P: WorkItems<I>,
    I: AnyItem,
    L: RunInput,
    A: Front<I, L>,
>(
    site: &Site<'_, R, S, I, L>,
    ahead: &mut A,
    _work: &P,
    out: &mut O,
    err: &mut E,
    saying: &mut Saying,
) -> Result<Option<Shown<I, L>>, RunFault>
    requires before { IsUnderWay L.range L.tasks L.start (P.left _work.now) (P.fits _work.now L.range.length) (A.state ahead.old)
        (io_state S.Shelf O.Sink E.Sink site.now.shelf.now out.old err.old) saying.old }
    ensures said { IsSaid L.range L.tasks L.start (P.left _work.now) (P.fits _work.now L.range.length) (A.state ahead.new)
        (io_state S.Shelf O.Sink E.Sink site.now.shelf.now out.new err.new) saying.new (λ entry. (arc_value {X = ℕ × Item} entry).1) result }
    ensures further { (A.state ahead.old).next ≤ (A.state ahead.new).next }
    ensures turn { IfOk result (λ came. IfSome came (λ _. (A.state ahead.old).next < (A.state ahead.new).next)) }
{
    'items: while ahead.is_settled() {
        let Some(entry) = ahead.pop() else {
            return Ok(None);
        };
        let finding = entry.take(site.rt);
        let Some((message, failures)) = entry.said(&finding) else {
            return Ok(Some(entry));
        };
        saying.uncounted += failures;
        let is_more_soon = ahead.is_known() && saying.lines.len() < MAX_LINES_LEN;
        say_after(
            site.shelf,
            out,
            err,
            &mut saying.lines,
            message,
            is_more_soon,
        )?;
        saying.count(&message.tally);
    }
    Ok(None)
}

// The main thread says what is known, and finds what is to be said of others meanwhile, until one needs its turn, which
// it answers, or none is left.
fn lead<
    R: Wait,
    S: Shelf,
    O: Sink,
    E: Sink,
    P: WorkItems<I>,
    I: AnyItem,
    L: RunInput,
    A: Front<I, L>,
>(
    site: &Site<'_, R, S, I, L>,
    name_hasher: &mut NameHasher,
    ahead: &mut A,
    work: &mut P,
    out: &mut O,
    err: &mut E,
    saying: &mut Saying,
) -> Result<Option<Shown<I, L>>, RunFault>
    requires before { IsUnderWay L.range L.tasks L.start (P.left work.old) (P.fits work.old L.range.length) (A.state ahead.old)
        (io_state S.Shelf O.Sink E.Sink site.now.shelf.now out.old err.old) saying.old }
    ensures led { IsLed L.range L.tasks L.start (P.left work.new) (P.fits work.new L.range.length) (A.state ahead.new)
        (io_state S.Shelf O.Sink E.Sink site.now.shelf.now out.new err.new) saying.new (λ entry. (arc_value {X = ℕ × Item} entry).1) result }
    ensures turn { IfOk result (λ came. IfSome came (λ _. (A.state ahead.old).next < (A.state ahead.new).next)) }
{
    'items: for _ in site.rt.forever() {
        refill(site, ahead, work)?;
        if ahead.len() == 0 {
            return Ok(None);
        }
        if let Some(entry) = say_known(site, ahead, &*work, out, err, saying)? {
            look_further(site, name_hasher, ahead, work)?;
            return Ok(Some(entry));
        }
        if !look_at_some(site, name_hasher, LOOKS, LOOKS_LEN) {
            ahead.wait(site.rt);
        }
    }
    unreachable!()
}

// The same, and then sends the helpers home.
fn lead_and_close<
    R: Wait,
    S: Shelf,
    O: Sink,
    E: Sink,
    P: WorkItems<I>,
    I: AnyItem,
    L: RunInput,
    A: Front<I, L>,
>(
    site: &Site<'_, R, S, I, L>,
    name_hasher: &mut NameHasher,
    ahead: &mut A,
    work: &mut P,
    out: &mut O,
    err: &mut E,
    saying: &mut Saying,
) -> Result<Option<Shown<I, L>>, RunFault>
    requires before { IsUnderWay L.range L.tasks L.start (P.left work.old) (P.fits work.old L.range.length) (A.state ahead.old)
        (io_state S.Shelf O.Sink E.Sink site.now.shelf.now out.old err.old) saying.old }
    ensures led { IsLed L.range L.tasks L.start (P.left work.new) (P.fits work.new L.range.length) (A.state ahead.new)
        (io_state S.Shelf O.Sink E.Sink site.now.shelf.now out.new err.new) saying.new (λ entry. (arc_value {X = ℕ × Item} entry).1) result }
    ensures turn { IfOk result (λ came. IfSome came (λ _. (A.state ahead.old).next < (A.state ahead.new).next)) }
{
    let led = lead(site, name_hasher, ahead, work, out, err, saying);
    site.crew.close(site.rt);
    led
}

/// Says what is known; then starts helpers, if there are any, and says what they and the main thread find, item after item,
/// until one needs its turn, which it answers, or none is left.
pub fn run_crew<
    R: Threads + Wait + Sync,
    S: Shelf + Sync,
    O: Sink,
    E: Sink,
    P: WorkItems<I>,
    I: AnyItem + Send + Sync,
    L: RunInput + Send + Sync,
    A: Front<I, L>,
>(
    site: &Site<'_, R, S, I, L>,
    name_hasher: &mut NameHasher,
    helpers: &mut [NameHasher],
    ahead: &mut A,
    work: &mut P,
    out: &mut O,
    err: &mut E,
    saying: &mut Saying,
) -> Result<Option<Shown<I, L>>, RunFault>
    requires before { IsUnderWay L.range L.tasks L.start (P.left work.old) (P.fits work.old L.range.length) (A.state ahead.old)
        (io_state S.Shelf O.Sink E.Sink site.now.shelf.now out.old err.old) saying.old }
    ensures led { IsLed L.range L.tasks L.start (P.left work.new) (P.fits work.new L.range.length) (A.state ahead.new)
        (io_state S.Shelf O.Sink E.Sink site.now.shelf.now out.new err.new) saying.new (λ entry. (arc_value {X = ℕ × Item} entry).1) result }
    ensures turn { IfOk result (λ came. IfSome came (λ _. (A.state ahead.old).next < (A.state ahead.new).next)) }
{
    if let Some(entry) = say_known(site, ahead, &*work, out, err, saying)? {
        return Ok(Some(entry));
    }
    ahead.show(site.rt, site.crew)?;
    if helpers.is_empty() {
        return lead(site, name_hasher, ahead, work, out, err, saying);
    }
    site.crew.open();
    lead_helpers(site, name_hasher, helpers, ahead, work, out, err, saying)
}

// The helpers and the main thread beside one another.
fn lead_helpers<
    R: Threads + Wait + Sync,
    S: Shelf + Sync,
    O: Sink,
    E: Sink,
    P: WorkItems<I>,
    I: AnyItem + Send + Sync,
    L: RunInput + Send + Sync,
    A: Front<I, L>,
>(
    site: &Site<'_, R, S, I, L>,
    name_hasher: &mut NameHasher,
    helpers: &mut [NameHasher],
    ahead: &mut A,
    work: &mut P,
    out: &mut O,
    err: &mut E,
    saying: &mut Saying,
) -> Result<Option<Shown<I, L>>, RunFault>
    requires some { 0 < length helpers.old }
    requires before { IsUnderWay L.range L.tasks L.start (P.left work.old) (P.fits work.old L.range.length) (A.state ahead.old)
        (io_state S.Shelf O.Sink E.Sink site.now.shelf.now out.old err.old) saying.old }
    ensures led { IsLed L.range L.tasks L.start (P.left work.new) (P.fits work.new L.range.length) (A.state ahead.new)
        (io_state S.Shelf O.Sink E.Sink site.now.shelf.now out.new err.new) saying.new (λ entry. (arc_value {X = ℕ × Item} entry).1) result }
    ensures turn { IfOk result (λ came. IfSome came (λ _. (A.state ahead.old).next < (A.state ahead.new).next)) }
{
    let (_, led) = thread::join_mut(
        site.rt,
        &mut || {
            for_each_beside(
                site.rt,
                helpers,
                &|_, helper: &mut NameHasher| help(site, helper),
            );
        },
        &mut || -> Result<Option<Shown<I, L>>, RunFault>
            requires { IsUnderWay L.range L.tasks L.start (P.left work.now) (P.fits work.now L.range.length) (A.state ahead.now)
                (io_state S.Shelf O.Sink E.Sink site.now.shelf.now out.now err.now) saying.now }
            ensures led { IsLed L.range L.tasks L.start (P.left work.exit.now) (P.fits work.exit.now L.range.length)
                (A.state ahead.exit.now) (io_state S.Shelf O.Sink E.Sink site.entry.now.shelf.now out.exit.now err.exit.now)
                saying.exit.now (λ entry. (arc_value {X = ℕ × Item} entry).1) result }
            ensures turn { IfOk result (λ came. IfSome came (λ _. (A.state ahead.entry.now).next < (A.state ahead.exit.now).next)) }
        { lead_and_close(site, name_hasher, ahead, work, out, err, saying) },
    );
    led
}
