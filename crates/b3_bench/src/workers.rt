//! Inputs of a few MiB, each hashed by two workers.

ghost use Rattle.std.specs.Prelude.{◌^◌, ◌<◌, ◌≤◌};

use crate::random::Random;
use crate::results::Results;
use crate::supply::Supply;
use b3_board::{BoardFault, OpenGate, Plan, default_grain, hash_parallel};
use b3_core::{Mode, chunks};
use b3_hash::Xof;
use std::alloc::Global;
use std::sync::Wait;
use std::thread::Threads;

/// How many workers hash an input.
pub const WORKERS: u32 = 2;

/// Hashes so many inputs.
pub fn hash_by_workers<R: Threads + Wait + Sync>(
    rt: &R,
    alloc: Global,
    size: u64,
    random: &mut Random,
    supply: &mut Supply<'_>,
    results: &mut Results,
) -> Result<(), BoardFault> {
    for _ in 0..size {
        let input = supply.take(random.between(1 << 20, (1 << 22) - 1) | 1);
        let grain = default_grain(chunks(input.len() as u64).clamp(1, 1 << 20));
        let plan = Plan::new(alloc, input, Mode::hash(), grain)?;
        let report = hash_parallel(rt, alloc, &plan, WORKERS, &OpenGate)?;
        results.add_output(Xof::from_node(report.root.node()));
    }
    Ok(())
}
