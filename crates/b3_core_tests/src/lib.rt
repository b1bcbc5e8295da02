//! Tests of `b3_core`, over its public calls: published vectors, compressions worked out by hand, trees and lanes beside one compression at a time.
#![tactic(auto)]

#[cfg(test)]
mod tests;
