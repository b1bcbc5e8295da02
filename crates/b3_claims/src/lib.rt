//! Claims on indexes, for workers that share what there is to do: each index is claimed at most once, whatever the
//! schedule.
//!
//! [`Claims`] has a shared word for each index. A [`Seat`] claims an index by one swap of its word, and keeps a list of
//! those that it claimed. Seats are split, one for each worker, and joined again: the last one, with all parts, lists each
//! index that is taken, once.
//!
//! A [`BoardFault`] says why claims, or what is built over them, are refused.
#![tactic(auto)]

mod claim_rule;
mod claims;
mod fault;

pub use claims::{Claims, Seat};
pub use fault::BoardFault;
