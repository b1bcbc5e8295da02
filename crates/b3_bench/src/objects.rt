//! Many objects, most of them short, each hashed as a whole: plain, with a key, and as key material.

ghost use Rattle.std.specs.Prelude.{◌^◌, ◌<◌};

use crate::random::Random;
use crate::results::Results;
use crate::supply::Supply;
use b3_core::Mode;
use b3_hash::{Hasher, derive_mode, hash, keyed_hash};

/// What the keys are for that are derived.
const CONTEXT: &str = "b3_bench 2026-11-26 the keys of many objects";

/// How many bytes of an output are read at most.
const MAX_OUTPUT_LEN: usize = 3_000;

/// Hashes so many objects. Each 32nd has a long output.
pub fn hash_objects(
    size: u64,
    random: &mut Random,
    supply: &mut Supply<'_>,
    results: &mut Results,
) {
    let mode = derive_mode(CONTEXT);
    for i in 0..size {
        let object = supply.take(object_len(random));
        match i % 3 {
            _ if i % 32 == 31 => add_long_output(&mode, object, random, results),
            0 => results.add(&hash(object)),
            1 => results.add(&keyed_hash(&random.key(), object)),
            _ => results.add_output(hasher_of(&mode, object).finish()),
        }
    }
}

/// The length of an object, which is odd.
fn object_len(random: &mut Random) -> u64 {
    let len = match random.below(12) {
        0..=3 => random.between(16, 256),
        4..=7 => random.between(256, 2_048),
        8..=10 => random.between(2_048, 16_384),
        _ => random.between(16_384, 65_535),
    };
    len | 1
}

/// A hasher of an object.
fn hasher_of(mode: &Mode, object: &[u8]) -> Hasher {
    let mut hasher = Hasher::new(*mode);
    let _ = hasher.update(object);
    hasher
}

/// Takes in some of the output of an object, from some place on.
fn add_long_output(mode: &Mode, object: &[u8], random: &mut Random, results: &mut Results) {
    let mut bytes = [0; MAX_OUTPUT_LEN];
    let len = random.between(500, MAX_OUTPUT_LEN as u64) as usize;
    let mut output = hasher_of(mode, object).finish();
    output.seek(random.below(1 << 40));
    let _ = output.fill(&mut bytes[..len]);
    results.add(&bytes[..len]);
}
