// What a run of workers gave.

use crate::root::Root;
use arrayvec::ArrayVec;

/// What a run of workers gave.
#[derive(Drop)]
pub struct Report {
    /// The root of the plan's input, or of the bytes of the source.
    pub root: Root,
    /// The spans' indexes, in some order in which they were claimed.
    pub claimed: ArrayVec<u32, 1024>,
    /// The chunks that each worker deposited.
    pub shares: ArrayVec<u64, 64>,
    /// The chunks that no worker deposited; over a source 0.
    pub swept: u64,
}
