//! Tests of `b3_hash`, over its public calls: published vectors, inputs cut into pieces and windows, and the output read in pieces and at places.
#![tactic(auto)]

#[cfg(test)]
mod tests;
