//! BLAKE3 as a library: hashes of whole inputs and of inputs that come piece by piece, in each mode, and
//! the extendable output.
//!
//! No call takes memory.
#![tactic(auto)]

mod chunk_hasher;
mod derivation;
mod hasher;
mod hashes;
mod laws;
mod open_chunk;
mod output;
mod subtree_stack;
mod window;

pub use derivation::derive_mode;
pub use hasher::{Hasher, TooLong, WindowFault};
pub use hashes::{hash, keyed_hash};
pub use laws::{output_of_pieces, read_places};
pub use output::{PastEnd, Xof};
