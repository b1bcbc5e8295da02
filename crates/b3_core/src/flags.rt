// The flags of a compression, joined by bitwise or (BLAKE3 (2020), 2.2).

// On the first block of each chunk.
pub(crate) const CHUNK_START: u32 = 1;

// On the last block of each chunk.
pub(crate) const CHUNK_END: u32 = 2;

// On each parent.
pub(crate) const PARENT: u32 = 4;

// On the last compression of the whole.
pub(crate) const ROOT: u32 = 8;

// On each compression of a keyed hash.
pub(crate) const KEYED_HASH: u32 = 16;

// On each compression of a context string.
pub(crate) const DERIVE_KEY_CONTEXT: u32 = 32;

// On each compression of key material.
pub(crate) const DERIVE_KEY_MATERIAL: u32 = 64;
