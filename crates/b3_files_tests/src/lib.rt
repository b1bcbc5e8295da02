//! Tests of `b3_files` and `b3_progress`, over their public calls: the shelf of real files, and the sinks over writers.
#![tactic(auto)]

pub mod in_memory;
#[cfg(test)]
mod tests;
