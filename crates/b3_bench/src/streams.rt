//! Streams: inputs that come piece by piece, in uneven pieces or in even ones.

use crate::random::Random;
use crate::results::Results;
use crate::supply::Supply;
use b3_core::Mode;
use b3_hash::Hasher;

/// How many bytes each piece of the long stream has.
const EVEN_LEN: u64 = 65_536;

/// How many such pieces a MiB has.
const PIECES_PER_MIB: u64 = 16;

/// Hashes so many streams of uneven pieces.
pub fn hash_pieces(size: u64, random: &mut Random, supply: &mut Supply<'_>, results: &mut Results) {
    for _ in 0..size {
        hash_stream(random, supply, results);
    }
}

/// Hashes a stream of about 40 pieces. Now and then its output so far is read.
fn hash_stream(random: &mut Random, supply: &mut Supply<'_>, results: &mut Results) {
    let mut hasher = Hasher::new(Mode::hash());
    for _ in 0..random.between(30, 50) {
        let _ = hasher.update(supply.take(piece_len(random)));
        if random.below(8) == 0 {
            results.add_output(hasher.finish());
        }
    }
    results.add_output(hasher.finish());
}

/// The length of an uneven piece.
fn piece_len(random: &mut Random) -> u64 {
    match random.below(20) {
        0..=11 => random.between(1, 200),
        12..=16 => random.between(1, 1_500),
        _ => random.between(5_000, 9_000),
    }
}

/// Hashes one stream of so many MiB.
pub fn hash_long(size: u64, supply: &mut Supply<'_>, results: &mut Results) {
    let mut hasher = Hasher::new(Mode::hash());
    for _ in 0..size.saturating_mul(PIECES_PER_MIB) {
        let _ = hasher.update(supply.take(EVEN_LEN));
    }
    results.add_output(hasher.finish());
}
