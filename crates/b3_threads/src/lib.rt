//! Work that is shared out among threads: [`for_each_beside`] starts them, and [`PIECE_LEN`] is what each reads at a time.
#![tactic(auto)]

mod threads;

pub use threads::for_each_beside;

/// How many bytes a worker reads at a time where its buffer takes no more: they stay in its core's cache.
pub const PIECE_LEN: usize = 1 << 18;
