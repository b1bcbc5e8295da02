//! The jobs, and how each is done.

use crate::check_lines::run_lines;
use crate::objects::hash_objects;
use crate::random::Random;
use crate::results::Results;
use crate::streams::{hash_long, hash_pieces};
use crate::supply::Supply;
use crate::tree::run_tree;
use crate::workers::hash_by_workers;
use anyhow::Result;
use std::alloc::Global;
use std::sync::Wait;
use std::thread::Threads;

/// All jobs, in the order in which they are done.
pub const JOBS: [Job; 6] = [
    Job::Tree,
    Job::Objects,
    Job::Pieces,
    Job::Long,
    Job::Workers,
    Job::Lines,
];

/// What is to be done.
#[derive(Clone, Copy)]
pub enum Job {
    /// A tree of files is summed and checked.
    Tree,
    /// Objects are hashed, each as a whole.
    Objects,
    /// Streams are hashed that come in uneven pieces.
    Pieces,
    /// One long stream is hashed.
    Long,
    /// Inputs are hashed by two workers.
    Workers,
    /// Check lines are written and read.
    Lines,
}

impl Job {
    /// The job's name.
    pub fn name(self) -> &'static str {
        match self {
            Job::Tree => "tree",
            Job::Objects => "objects",
            Job::Pieces => "pieces",
            Job::Long => "long",
            Job::Workers => "workers",
            Job::Lines => "lines",
        }
    }

    /// Does the job, and answers the digest of all that it computed.
    pub fn run<R: Threads + Wait + Sync>(
        self,
        rt: &R,
        alloc: Global,
        bytes: &[u8],
        seed: u64,
        size: u64,
    ) -> Result<[u8; 32]> {
        let mut random = Random::new(seed);
        let mut supply = Supply::new(bytes, random.word());
        let mut results = Results::new();
        let (random, supply, found) = (&mut random, &mut supply, &mut results);
        match self {
            Job::Tree => run_tree(rt, alloc, bytes, size, random, supply, found)?,
            Job::Objects => hash_objects(size, random, supply, found),
            Job::Pieces => hash_pieces(size, random, supply, found),
            Job::Long => hash_long(size, supply, found),
            Job::Workers => hash_by_workers(rt, alloc, size, random, supply, found)?,
            Job::Lines => run_lines(alloc, size, random, supply, found)?,
        }
        Ok(results.digest())
    }
}
