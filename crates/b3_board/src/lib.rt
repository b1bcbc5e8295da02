//! A board over the tree of one input: which spans of it are still to be hashed, and the nodes of the
//! subtrees that were.
//!
//! A [`Plan`] cuts an input into spans. Each span is a [`Job`], whose work gives a [`Done`]; a [`Board`]
//! takes what is done in any order, merges siblings, and has the root once no span is open. A [`Share`]
//! counts the chunks that its owner deposited.
//!
//! [`hash_parallel`] hashes a plan by many workers, each in a thread: they take spans by [`Claims`], and
//! deposit what they did on one board. [`hash_source`] does so over a [`Source`], of which each worker reads the spans
//! that it claims.
#![tactic(auto)]

mod backing;
mod board;
mod cutting;
mod entries;
mod from_source;
mod gate;
mod input_ledger;
mod jobs;
mod merging;
mod parallel;
mod plan;
mod report;
mod root;
mod run;
mod share;
mod source;
mod source_plan;
mod span_hasher;
mod tree;
mod worker_state;
mod workers;

pub use b3_claims::{BoardFault, Claims, Seat};
pub use b3_threads::{PIECE_LEN, for_each_beside};
pub use backing::{Backing, InMemory, InSource, SourceLedger};
pub use board::{Board, MemoryBoard, Refused, SourceBoard};
pub use cutting::default_grain;
pub use from_source::hash_source;
pub use gate::{Gate, OpenGate};
pub use input_ledger::InputLedger;
pub use jobs::{Done, Job};
pub use parallel::hash_parallel;
pub use plan::Plan;
pub use report::Report;
pub use root::Root;
pub use share::Share;
pub use source::Source;
pub use worker_state::MAX_WORKERS;
pub use workers::{Ended, worker};
