//! The items that a run has taken and not done yet, in their order.

ghost use Rattle.std.specs.Prelude.{◌≡◌, ℕ, ◌+◌, ◌++◌, ◌-◌, ◌^◌, ◌<◌, ◌≤◌, [], ◌∷◌, Some, slice_get, true, length, IfNone, IfSome, OnOk};
ghost use Rattle.std.specs.Arc.{arc_value};
ghost use Rattle.b3_crew.specs.Crews.{AheadState, IsAt, tasks_ahead};
ghost use Rattle.b3_io.specs.Tasks.{IsFitItem, task_of};
ghost use Rattle.b3_io.specs.declared.items.Item.{Item};

use crate::crew::{Crew, Shown};
use crate::entry::Entry;
use crate::run_input::RunInput;
use b3_io::{AnyItem, WorkItems};
use std::alloc::{AllocError, Global};
use std::collections::VecDeque;
use std::marker::Model;
use std::sync::{Arc, Wait};

/// Items that were taken and not done yet, whatever holds them.
pub trait Front<I: AnyItem, L: RunInput> {
    /// The items, and the number of the first.
    ghost state: { Self → AheadState };

    /// How many items were taken and not done.
    fn len(&self) -> usize
        ensures { result ≡ length (state self.now).items };

    /// Whether it is known what is to be said of the first.
    fn is_known(&self) -> bool;

    /// Whether that is known, or that it needs its turn.
    fn is_settled(&self) -> bool;

    /// Waits until one of both is known, if there is a first.
    fn wait<R: Wait>(&self, rt: &R);

    /// Takes items, until there are so many of them or no more come.
    fn take_items<P: WorkItems<I>>(&mut self, work: &mut P, count: usize) -> Result<(), AllocError>
        requires some { 0 < count }
        requires at { IsAt L.tasks (tasks_ahead (state self.old) (P.left work.old)) (state self.old).next }
        requires few { length L.tasks < 2 ^ 63 }
        requires fits { P.fits work.old L.range.length ≡ true }
        ensures left { OnOk result (tasks_ahead (state self.new) (P.left work.new)
            ≡ tasks_ahead (state self.old) (P.left work.old)) }
        ensures next { OnOk result ((state self.new).next ≡ (state self.old).next) }
        ensures all { OnOk result ((state self.new).items ≡ [] → P.left work.new ≡ []) }
        ensures fits { OnOk result (P.fits work.new L.range.length ≡ true) };

    /// Shows the crew the items that it was not shown yet.
    fn show<R: Wait>(&mut self, rt: &R, crew: &Crew<I, L>) -> Result<(), AllocError>
        ensures { OnOk result (state self.new ≡ state self.old) };

    /// Takes the first item, which is to be done now.
    fn pop(&mut self) -> Option<Shown<I, L>>
        requires { (state self.old).next < 2 ^ 63 }
        ensures none { IfNone result ((state self.old).items ≡ []) }
        ensures same { IfNone result (state self.new ≡ state self.old) }
        ensures some { IfSome result (λ entry. (state self.old).items
            ≡ (arc_value {X = ℕ × Item} entry).1 ∷ (state self.new).items) }
        ensures number { IfSome result (λ entry. (state self.new).next ≡ (state self.old).next + 1) };
}

/// The items that were taken, of which the first has the number `next`.
#[derive(Drop)]
pub struct Ahead<I: AnyItem, L: RunInput> {
    alloc: Global,
    next: u64,
    queue: VecDeque<Shown<I, L>>,
    // how many of them were shown to the crew
    shown: usize,
}

impl<I: AnyItem, L: RunInput> Model for Ahead<I, L> {
    ghost use Rattle.std.specs.Prelude.{ℕ, map};
    ghost use Rattle.std.specs.Arc.{arc_value};
    ghost use Rattle.b3_crew.specs.Crews.{AheadState};
    ghost use Rattle.b3_io.specs.declared.items.Item.{Item};

    ghost Value = { AheadState };

    ghost view = { λ ahead. record { next = ahead.next; items = map (λ entry. (arc_value {X = ℕ × Item} entry).1) ahead.queue.items } };
}

impl<I: AnyItem, L: RunInput> Ahead<I, L> {
    /// No item is taken.
    pub fn new(alloc: Global) -> Ahead<I, L>
        ensures items { result.items ≡ [] }
        ensures next { result.next ≡ 0 }
    {
        Ahead {
            alloc,
            next: 0,
            queue: VecDeque::new(alloc),
            shown: 0,
        }
    }

    // Takes the item that comes next.
    fn push(&mut self, item: I) -> Result<(), AllocError>
        requires is { slice_get L.tasks (self.old.next + length self.old.items) ≡ Some (task_of (I.item item)) }
        requires fit { IsFitItem L.range.length (I.item item) }
        requires room { self.old.next + length self.old.items < 2 ^ 63 }
        ensures items { OnOk result (self.new.items ≡ self.old.items ++ I.item item ∷ []) }
        ensures next { OnOk result (self.new.next ≡ self.old.next) }
    {
        let number = self.next + self.queue.len() as u64;
        self.queue
            .push_back(Arc::new(self.alloc, Entry::new(number, item))?)?;
        Ok(())
    }

    // The items that the crew was not shown yet, of which a thread is to look at some.
    fn unshown(&self) -> Result<Vec<Shown<I, L>>, AllocError> {
        let mut entries = Vec::with_capacity(
            self.alloc,
            self.queue.len().saturating_sub(self.shown),
        )?;
        for index in self.shown..self.queue.len() {
            if let Some(entry) = self.queue.get(index) {
                if entry.asks() {
                    entries.push(Arc::try_clone(entry)?)?;
                }
            }
        }
        Ok(entries)
    }
}

impl<I: AnyItem, L: RunInput> Front<I, L> for Ahead<I, L> {
    ghost state = { λ ahead. ahead };

    fn len(&self) -> usize {
        self.queue.len()
    }

    fn is_known(&self) -> bool {
        matches!(self.queue.front(), Some(entry) if entry.is_known())
    }

    fn is_settled(&self) -> bool {
        matches!(self.queue.front(), Some(entry) if entry.is_settled())
    }

    fn wait<R: Wait>(&self, rt: &R) {
        if let Some(entry) = self.queue.front() {
            entry.wait(rt);
        }
    }

    fn take_items<P: WorkItems<I>>(
        &mut self,
        work: &mut P,
        count: usize,
    ) -> Result<(), AllocError> {
        'items: while self.len() < count {
            let Some(item) = work.next()? else {
                return Ok(());
            };
            self.push(item)?;
        }
        Ok(())
    }

    fn show<R: Wait>(&mut self, rt: &R, crew: &Crew<I, L>) -> Result<(), AllocError> {
        let entries = self.unshown()?;
        crew.add(rt, entries)?;
        self.shown = self.queue.len();
        Ok(())
    }

    fn pop(&mut self) -> Option<Shown<I, L>> {
        let entry = self.queue.pop_front()?;
        self.next += 1;
        self.shown = self.shown.saturating_sub(1);
        Some(entry)
    }
}
