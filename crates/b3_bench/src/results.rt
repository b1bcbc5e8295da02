//! The digest of all that a job computed.

use b3_core::Mode;
use b3_hash::{Hasher, Xof};

/// Takes in what a job computes, piece by piece.
#[derive(Drop)]
pub struct Results {
    hasher: Hasher,
}

impl Results {
    /// Nothing is taken in.
    pub fn new() -> Results {
        Results {
            hasher: Hasher::new(Mode::hash()),
        }
    }

    /// Takes in bytes.
    pub fn add(&mut self, bytes: &[u8]) {
        let _ = self.hasher.update(bytes);
    }

    /// Takes in a number that depends on all of these bytes, which is made sooner than a digest.
    pub fn add_folded(&mut self, bytes: &[u8]) {
        let mut sum = bytes.len() as u64;
        for piece in bytes.chunks(8) {
            sum = (sum.rotate_left(5) ^ word_of(piece)).wrapping_mul(0x9E37_79B9_7F4A_7C15);
        }
        self.add(&sum.to_le_bytes());
    }

    /// Takes in the first 32 bytes of an output.
    pub fn add_output(&mut self, output: Xof) {
        self.add(&digest_of(output));
    }

    /// The digest of all that was taken in.
    pub fn digest(&self) -> [u8; 32] {
        digest_of(self.hasher.finish())
    }
}

/// The word of eight bytes, and of fewer the last one.
fn word_of(piece: &[u8]) -> u64 {
    match piece {
        [a, b, c, d, e, f, g, h] => u64::from_le_bytes([*a, *b, *c, *d, *e, *f, *g, *h]),
        [.., last] => *last as u64,
        [] => 0,
    }
}

/// The next 32 bytes of an output.
fn digest_of(mut output: Xof) -> [u8; 32] {
    let mut digest = [0; 32];
    let _ = output.fill(&mut digest);
    digest
}
