//! Tests of `b3_board`, over its public calls: boards drawn by hand, what they refuse and keep, shares, claims and
//! runs of many workers.
#![tactic(auto)]

#[cfg(test)]
mod tests;
