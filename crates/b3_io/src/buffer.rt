//! The memory that files are read into.

ghost use Rattle.std.specs.Prelude.{◌≡◌, ◌<◌, ◌≤◌, IfOk, length};

use std::alloc::{AllocError, Global};

/// How many bytes are read at a time of a file that is read in order, at most.
pub const READ_LEN: usize = 65_536;

/// How many they are at least, so that a file which tells too short a length takes no read for each few bytes.
const LEAST_READ_LEN: u64 = 4_096;

/// Memory for reads: for one in order, and for more where more is lent.
#[derive(Drop)]
pub struct Buffer {
    bytes: Vec<u8>,
}

impl Buffer {
    /// A buffer that lends as many bytes as are read in order at a time without taking more memory.
    pub fn new(alloc: Global) -> Result<Buffer, AllocError> {
        Ok(Buffer {
            bytes: Vec::with_capacity(alloc, READ_LEN)?,
        })
    }

    /// Lends the bytes for reads in order of a file that tells this length, or 0 where it tells none: one more than it
    /// has, which shows its end. So a short file touches no more memory than it needs.
    pub fn for_reads(&mut self, len_hint: u64) -> Result<&mut [u8], AllocError>
        ensures some { IfOk result (λ front. 0 < length front.now) }
        ensures most { IfOk result (λ front. length front.now ≤ READ_LEN) }
    {
        let len = match len_hint {
            0 => READ_LEN,
            told => told
                .saturating_add(1)
                .clamp(LEAST_READ_LEN, READ_LEN as u64) as usize,
        };
        self.front(len)
    }

    /// Lends the first `len` bytes, whatever they are.
    pub fn front(&mut self, len: usize) -> Result<&mut [u8], AllocError>
        ensures { IfOk result (λ front. length front.now ≡ len) }
    {
        if self.bytes.len() < len {
            self.bytes.resize(len, 0)?;
        }
        let bytes = self.bytes.as_mut_slice();
        Ok(&mut bytes[..len])
    }
}
