//! What the threads of a run share: the items that are still to be looked at.

use crate::entry::Entry;
use crate::run_input::RunInput;
use b3_io::AnyItem;
use std::alloc::{AllocError, Global};
use std::collections::VecDeque;
use std::sync::atomic::{AtomicBool, AtomicUsize, Ordering};
use std::sync::{Arc, Condvar, Mutex, Wait};

/// An item that a run and its helpers look at beside one another.
pub type Shown<I, L> = Arc<Entry<I, L>, Global>;

/// Items that threads take one after the other, without a lock.
#[derive(Drop)]
pub struct Batch<I: AnyItem, L: RunInput> {
    entries: Vec<Shown<I, L>>,
    taken: AtomicUsize,
}

impl<I: AnyItem, L: RunInput> Batch<I, L> {
    pub fn len(&self) -> usize {
        self.entries.len()
    }

    /// The next item, which no other thread gets.
    pub fn take(&self) -> Option<&Shown<I, L>> {
        self.entries.get(self.taken.fetch_add(1, Ordering::SeqCst))
    }

    fn is_empty(&self) -> bool {
        self.taken.load(Ordering::SeqCst) >= self.entries.len()
    }
}

// What lies behind the lock: the batches, and how many helpers wait for one.
#[derive(Drop)]
struct Shared<I: AnyItem, L: RunInput> {
    batches: VecDeque<Arc<Batch<I, L>, Global>>,
    idle: usize,
}

impl<I: AnyItem, L: RunInput> Shared<I, L> {
    // The first batch that has items left.
    fn first(&mut self) -> Option<Arc<Batch<I, L>, Global>> {
        'batches: while let Some(batch) = self.batches.front() {
            if !batch.is_empty() {
                return Arc::try_clone(batch).ok();
            }
            self.batches.pop_front();
        }
        None
    }
}

/// What the threads of a run share.
#[derive(Drop)]
pub struct Crew<I: AnyItem, L: RunInput> {
    alloc: Global,
    shared: Mutex<Shared<I, L>>,
    // a batch was added, or the crew was closed
    more: Condvar,
    is_open: AtomicBool,
}

impl<I: AnyItem, L: RunInput> Crew<I, L> {
    /// One with no items, which is closed.
    pub fn new(alloc: Global) -> Crew<I, L> {
        Crew {
            alloc,
            shared: Mutex::new(Shared {
                batches: VecDeque::new(alloc),
                idle: 0,
            }),
            more: Condvar::new(),
            is_open: AtomicBool::new(false),
        }
    }

    /// Whether helpers are to take items.
    pub fn is_open(&self) -> bool {
        self.is_open.load(Ordering::SeqCst)
    }

    /// Lets helpers take items.
    pub fn open(&self) {
        self.is_open.store(true, Ordering::SeqCst);
    }

    /// Sends the helpers home.
    pub fn close<R: Wait>(&self, rt: &R) {
        let guard = self.shared.lock(rt);
        self.is_open.store(false, Ordering::SeqCst);
        drop(guard);
        self.more.notify_all();
    }

    /// Adds items as a batch.
    pub fn add<R: Wait>(&self, rt: &R, entries: Vec<Shown<I, L>>) -> Result<(), AllocError> {
        if entries.is_empty() {
            return Ok(());
        }
        let taken = AtomicUsize::new(0);
        let batch = Arc::new(self.alloc, Batch { entries, taken })?;
        let mut guard = self.shared.lock(rt);
        guard.batches.push_back(batch)?;
        let is_awaited = guard.idle > 0;
        drop(guard);
        if is_awaited {
            self.more.notify_all();
        }
        Ok(())
    }

    /// The first batch that has items left.
    pub fn batch<R: Wait>(&self, rt: &R) -> Option<Arc<Batch<I, L>, Global>> {
        self.shared.lock(rt).first()
    }

    /// The same for a helper, which waits for one. None once the crew is closed.
    pub fn next_batch<R: Wait>(&self, rt: &R) -> Option<Arc<Batch<I, L>, Global>> {
        let mut guard = self.shared.lock(rt);
        for _ in rt.forever() {
            if !self.is_open() {
                return None;
            }
            let first = guard.first();
            if first.is_some() {
                return first;
            }
            guard.idle = guard.idle.saturating_add(1);
            guard = self.more.wait(rt, guard);
            guard.idle = guard.idle.saturating_sub(1);
        }
        None
    }
}
