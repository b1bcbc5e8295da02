//! The bytes that all inputs are taken from.

use crate::random::Random;
use std::alloc::{AllocError, Global};

/// How many bytes are made, once: 4 MiB, and 64 KiB more, so that an input of 4 MiB has many places too.
const SUPPLY_LEN: usize = (1 << 22) + (1 << 16);

/// How far the next input is from the last one: twice a prime, so that each odd place comes once before one comes
/// again.
const STEP: u64 = 2 * 1_299_709;

/// Bytes that look random.
pub fn random_bytes(alloc: Global, random: &mut Random) -> Result<Vec<u8>, AllocError> {
    let mut bytes = Vec::with_capacity(alloc, SUPPLY_LEN)?;
    for _ in 0..SUPPLY_LEN / 8 {
        bytes.extend_from_slice(&random.word().to_le_bytes())?;
    }
    Ok(bytes)
}

/// Bytes, and the place that the next input comes from.
#[derive(Drop)]
pub struct Supply<'a> {
    bytes: &'a [u8],
    place: u64,
}

impl<'a> Supply<'a> {
    /// The first input comes from about this place.
    pub fn new(bytes: &'a [u8], place: u64) -> Supply<'a> {
        Supply {
            bytes,
            place: place | 1,
        }
    }

    /// The place of the next input of so many bytes, which is odd.
    pub fn next_place(&mut self, len: u64) -> u64 {
        self.place = self.place.wrapping_add(STEP);
        let places = (self.bytes.len() as u64).saturating_sub(len) / 2;
        (self.place / 2 % places.max(1)).wrapping_mul(2) | 1
    }

    /// The next input of so many bytes, of at most 4 MiB.
    pub fn take(&mut self, len: u64) -> &'a [u8] {
        let place = self.next_place(len);
        part(self.bytes, place, len)
    }
}

/// So many bytes from a place on, or fewer where there are no more.
pub fn part(bytes: &[u8], place: u64, len: u64) -> &[u8] {
    let found = bytes.get(place as usize..);
    let rest = found.unwrap_or(b"");
    let front = rest.get(..len as usize);
    front.unwrap_or(rest)
}
