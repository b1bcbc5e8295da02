//! Items with their numbers, and what was found of them.

ghost use Rattle.std.specs.Prelude.{◌≡◌, ◌≤◌, Some, IfSome, slice_get};
ghost use Rattle.b3_crew.specs.Crews.{IsFoundAt, IsMessageFor};
ghost use Rattle.b3_io.specs.Tasks.{IsFitItem, counted, task_of};

use crate::run_input::RunInput;
use b3_io::{AnyItem, Item, Message};
use std::marker::{Model, PhantomData};
use std::sync::atomic::{AtomicU64, Ordering};
use std::sync::{Mutex, Wait};

/// What is to be said of a name, and how many names were not read for it: one, or none.
#[derive(Drop)]
pub struct Finding {
    pub message: Message,
    pub failures: u64,
}

/// What was found of the item with a number; nothing where the item needs its turn.
#[derive(Drop)]
struct Found<L: RunInput> {
    number: u64,
    finding: Option<Finding>,
    of: PhantomData<L>,
}

impl<L: RunInput> Model for Found<L> {
    ghost use Rattle.std.specs.Prelude.{ℕ, Option};
    ghost use Rattle.b3_crew.specs.Crews.{IsFoundAt};
    ghost use Rattle.b3_crew.specs.declared.entry.Finding.{Finding};

    ghost Value = { ℕ × Option Finding };

    ghost view = { λ found. (found.number, found.finding) };

    ghost invariant = { λ found. IsFoundAt L.start L.range L.tasks found.number found.finding };
}

impl<L: RunInput> Found<L> {
    fn new(number: u64, finding: Option<Finding>) -> Found<L>
        requires { IsFoundAt L.start L.range L.tasks number finding }
    {
        Found {
            number,
            finding,
            of: PhantomData,
        }
    }

    // What was found, if it is of the item with this number.
    fn finding_of(self, number: u64) -> Option<Finding>
        ensures { IsFoundAt L.start L.range L.tasks number result }
    {
        if self.number != number {
            return None;
        }
        self.finding
    }
}

// What is known of an item: nothing; nothing, and the main thread waits; that it needs its turn; what is to be said.
const UNKNOWN: u64 = 0;

const AWAITED: u64 = 1;

const NEEDS_TURN: u64 = 2;

const KNOWN: u64 = 3;

/// An item of the run that its type names, with its number, and what was found of it, once that is known.
#[derive(Drop)]
pub struct Entry<I: AnyItem, L: RunInput> {
    number: u64,
    item: I,
    state: AtomicU64,
    // one thread writes it, and then the main thread takes it: so none waits for this lock
    found: Mutex<Option<Found<L>>>,
}

impl<I: AnyItem, L: RunInput> Model for Entry<I, L> {
    ghost use Rattle.std.specs.Prelude.{◌≡◌, ℕ, Some, slice_get};
    ghost use Rattle.b3_io.specs.Tasks.{IsFitItem, task_of};
    ghost use Rattle.b3_io.specs.declared.items.Item.{Item};

    ghost Value = { ℕ × Item };

    ghost view = { λ entry. (entry.number, I.item entry.item) };

    ghost invariant = { λ entry. (slice_get L.tasks entry.number ≡ Some (task_of (I.item entry.item)))
        × IsFitItem L.range.length (I.item entry.item) };
}

impl<I: AnyItem, L: RunInput> Entry<I, L> {
    /// The item with this number, of which nothing was found.
    pub fn new(number: u64, item: I) -> Entry<I, L>
        requires is { slice_get L.tasks number ≡ Some (task_of (I.item item)) }
        requires fit { IsFitItem L.range.length (I.item item) }
        ensures { result ≡ (number, I.item item) }
    {
        Entry {
            number,
            item,
            state: AtomicU64::new(UNKNOWN),
            found: Mutex::new(None),
        }
    }

    pub fn item(&self) -> &Item<'_>
        ensures item { result.now ≡ self.now.1 }
        ensures is { slice_get L.tasks self.now.0 ≡ Some (task_of result.now) }
        ensures fit { IsFitItem L.range.length result.now }
    {
        self.item.get()
    }

    /// Notes what was found of the item, which only one thread looks at; nothing where it needs its turn. It wakes the main
    /// thread if that waits.
    pub fn put<R: Wait>(&self, rt: &R, finding: Option<Finding>)
        requires { IsFoundAt L.start L.range L.tasks self.now.0 finding }
    {
        let state = if finding.is_some() { KNOWN } else { NEEDS_TURN };
        *self.found.lock(rt) = Some(Found::new(self.number, finding));
        if self.state.swap(state, Ordering::SeqCst) == AWAITED {
            self.state.wake_all();
        }
    }

    /// Whether a thread is to look at the item.
    pub fn asks(&self) -> bool {
        matches!(self.item(), Item::Ask(_))
    }

    /// Whether it is known what is to be said of the item.
    pub fn is_known(&self) -> bool {
        !self.asks() || self.state.load(Ordering::SeqCst) == KNOWN
    }

    /// Whether that is known, or that the item needs its turn.
    pub fn is_settled(&self) -> bool {
        !self.asks() || self.state.load(Ordering::SeqCst) >= NEEDS_TURN
    }

    /// Waits until one of both is known.
    pub fn wait<R: Wait>(&self, rt: &R) {
        for _ in rt.forever() {
            if self.is_settled() {
                return;
            }
            let _ = self
                .state
                .compare_exchange(UNKNOWN, AWAITED, Ordering::SeqCst, Ordering::SeqCst);
            self.state.park(rt, AWAITED as u32);
        }
    }

    /// Takes what was found of the item. Nothing where it needs its turn, or no thread looked at it.
    pub fn take<R: Wait>(&self, rt: &R) -> Option<Finding>
        ensures { IsFoundAt L.start L.range L.tasks self.now.0 result }
    {
        let found = self.found.lock(rt).take()?;
        found.finding_of(self.number)
    }

    /// What is to be said of the item, of which this was found, and how many names were not read for it.
    pub fn said<'m>(&'m self, finding: &'m Option<Finding>) -> Option<(&'m Message, u64)>
        requires { IsFoundAt L.start L.range L.tasks self.now.0 finding.now }
        ensures right { IfSome result (λ said. IsMessageFor L.start L.range self.now.1 said.0.now said.1) }
        ensures one { IfSome result (λ said. said.1 ≤ 1) }
        ensures twice { IfSome result (λ said. counted said.0.now.tally ≤ 2) }
    {
        match self.item() {
            Item::Say(message) => Some((message, 0)),
            Item::Ask(_) => {
                let finding = finding.as_ref()?;
                Some((&finding.message, finding.failures))
            }
        }
    }
}
