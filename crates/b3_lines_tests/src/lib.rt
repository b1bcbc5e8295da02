//! Tests of `b3_lines`, over its public calls: lines that are written, read and refused, and refused memory.
#![tactic(auto)]

#[cfg(test)]
mod tests;
