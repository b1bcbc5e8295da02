//! Tests of the engines of `b3_check`, over their public calls: what runs write and count, over devices in memory,
//! devices that fail and devices that take few bytes a call.
#![tactic(auto)]

#[cfg(test)]
mod tests;
