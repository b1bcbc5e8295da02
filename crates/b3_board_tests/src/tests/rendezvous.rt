// Threads that wait for one another, and gates.

use b3_board::Gate;
use std::sync::atomic::{AtomicBool, AtomicU64, Ordering};
use std::thread;

/// For how many turns, each of which yields the processor, a thread waits at most.
pub const TURNS: u64 = 1_000_000;

/// Where each thread waits until so many different ones have arrived. Once one has waited in vain, none waits.
#[derive(Drop)]
pub struct Rendezvous {
    wanted: u32,
    // a bit for each thread
    arrived: AtomicU64,
    is_missed: AtomicBool,
}

impl Rendezvous {
    pub fn new(wanted: u32) -> Rendezvous {
        Rendezvous {
            wanted,
            arrived: AtomicU64::new(0),
            is_missed: AtomicBool::new(false),
        }
    }

    /// Arrives as one of 64 threads, and waits for the others.
    pub fn arrive(&self, number: u64) {
        self.arrived.fetch_or(1 << (number % 64), Ordering::SeqCst);
        for _ in 0..TURNS {
            if self.have_arrived() || self.is_missed.load(Ordering::SeqCst) {
                return;
            }
            thread::yield_now();
        }
        self.is_missed.store(true, Ordering::SeqCst);
    }

    fn have_arrived(&self) -> bool {
        self.arrived().count_ones() >= self.wanted
    }

    /// Which threads have arrived, a bit for each.
    pub fn arrived(&self) -> u64 {
        self.arrived.load(Ordering::SeqCst)
    }

    /// As many have arrived as were wanted, and none of them waited in vain.
    pub fn is_complete(&self) -> bool {
        self.have_arrived() && !self.is_missed.load(Ordering::SeqCst)
    }
}

/// Holds each worker until so many different ones have come, and keeps how often it was passed, and with which spans.
#[derive(Drop)]
pub struct AllAtOnce {
    pub workers: Rendezvous,
    spans: AtomicU64,
    calls: AtomicU64,
}

impl AllAtOnce {
    pub fn new(wanted: u32) -> AllAtOnce {
        AllAtOnce {
            workers: Rendezvous::new(wanted),
            spans: AtomicU64::new(0),
            calls: AtomicU64::new(0),
        }
    }

    /// Which of 64 spans came, a bit for each.
    pub fn spans(&self) -> u64 {
        self.spans.load(Ordering::SeqCst)
    }

    /// How often the gate was passed.
    pub fn calls(&self) -> u64 {
        self.calls.load(Ordering::SeqCst)
    }
}

impl Gate for AllAtOnce {
    fn pass(&self, worker: usize, span: usize) {
        self.spans.fetch_or(1 << (span % 64), Ordering::SeqCst);
        self.calls.fetch_add(1, Ordering::SeqCst);
        self.workers.arrive(worker as u64);
    }
}

/// Lets the others go on.
pub struct Yielding;

impl Gate for Yielding {
    fn pass(&self, _worker: usize, _span: usize) {
        thread::yield_now();
    }
}
