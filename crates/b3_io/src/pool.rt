//! The workers of a run.

ghost use Rattle.std.specs.Prelude.{◌<◌, ◌≤◌};

use std::alloc::Global;

/// From 1 to 64 workers, what starts their threads, their memory, and the gate that they pass.
#[derive(Drop)]
pub struct Pool<'c, R, G> {
    pub rt: &'c R,
    pub alloc: Global,
    pub workers: u32,
    pub gate: &'c G,
    ghost some: { 0 < workers },
    ghost few: { workers ≤ 64 },
}
