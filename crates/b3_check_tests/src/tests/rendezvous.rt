// Threads that wait for one another.

use b3_board::Gate;
use std::sync::atomic::{AtomicBool, AtomicU64, Ordering};
use std::thread;

/// Where each thread waits until so many different ones have arrived, for at most a million turns. Once one has waited
/// in vain, none waits.
#[derive(Drop)]
pub struct Rendezvous {
    wanted: u32,
    // a bit for each thread
    arrived: AtomicU64,
    is_missed: AtomicBool,
}

impl Rendezvous {
    pub fn new(wanted: u32) -> Rendezvous {
        Rendezvous {
            wanted,
            arrived: AtomicU64::new(0),
            is_missed: AtomicBool::new(false),
        }
    }

    /// Arrives as one of 64 threads, and waits for the others.
    pub fn arrive(&self, number: u64) {
        self.arrived.fetch_or(1 << (number % 64), Ordering::SeqCst);
        for _ in 0..1_000_000u64 {
            if self.arrived() >= self.wanted || self.is_missed.load(Ordering::SeqCst) {
                return;
            }
            thread::yield_now();
        }
        self.is_missed.store(true, Ordering::SeqCst);
    }

    /// How many different threads have arrived.
    pub fn arrived(&self) -> u32 {
        self.arrived.load(Ordering::SeqCst).count_ones()
    }

    /// As many have arrived as were wanted, and none of them waited in vain.
    pub fn is_complete(&self) -> bool {
        self.arrived() >= self.wanted && !self.is_missed.load(Ordering::SeqCst)
    }
}

/// Holds each worker until so many different ones have come, and counts the calls.
#[derive(Drop)]
pub struct AllAtOnce {
    pub workers: Rendezvous,
    calls: AtomicU64,
}

impl AllAtOnce {
    pub fn new(wanted: u32) -> AllAtOnce {
        AllAtOnce {
            workers: Rendezvous::new(wanted),
            calls: AtomicU64::new(0),
        }
    }

    /// How often a span was hashed.
    pub fn calls(&self) -> u64 {
        self.calls.load(Ordering::SeqCst)
    }
}

impl Gate for AllAtOnce {
    fn pass(&self, worker: usize, _span: usize) {
        self.calls.fetch_add(1, Ordering::SeqCst);
        self.workers.arrive(worker as u64);
    }
}
