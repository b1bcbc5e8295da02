// The chunk that an incremental hash has begun (BLAKE3 (2020), 2.4).

ghost use Rattle.std.specs.Prelude.{◌≡◌, ℕ, ◌+◌, ◌-◌, ◌*◌, ◌/◌, ◌<◌, ◌≤◌, ◌↔◌, [], ◌++◌, List, IsTrue, drop, length, replicate};

use b3_core::{BLOCK_LEN, Mode, Node, chain_onto, last_block_node};

// A chunk of at most 1,024 bytes so far: the chaining value of its closed blocks, how many these are,
// and the open block, which is closed only when a further byte comes. Zeros fill it up, so that it can be read as it is
// where it is the last.
#[derive(Clone, Copy)]
pub(crate) struct OpenChunk {
    h: [u32; 8],
    block: [u8; 64],
    closed_blocks: usize,
    block_len: usize,
    ghost block_size: { length block ≡ 64 },
    ghost block_fits: { block_len ≤ 64 },
    ghost padding: { drop block_len block ≡ replicate (64 - block_len) 0 },
    ghost blocks_fit: { closed_blocks ≤ 15 },
}

impl OpenChunk {
    ghost use Rattle.b3_core.specs.Chunks.{chaining_value_at, chunk_node};
    ghost use Rattle.b3_core.specs.declared.modes.Mode.{Mode};
    ghost use Rattle.b3_hash.specs.OpenChunks.{HasBytes, IsChunkState};
    ghost use Rattle.b3_hash.specs.Private.{chunk_state_of};

    // A chunk of no bytes.
    pub(crate) fn new(mode: &Mode) -> OpenChunk
        ensures blocks { result.closed_blocks ≡ 0 }
        ensures len { result.block_len ≡ 0 }
        ensures chunk_state { (number : ℕ) → IsChunkState mode.now number (chunk_state_of result) [] }
    {
        OpenChunk {
            h: mode.key,
            block: [0; BLOCK_LEN],
            closed_blocks: 0,
            block_len: 0,
        }
    }

    // Begins with all of these bytes, where the chaining value that reaches their last block is known.
    pub(crate) fn begin(&mut self, h: [u32; 8], bytes: &[u8])
        requires some { 0 < length bytes.now }
        requires room { length bytes.now ≤ 1024 }
        ensures len { 64 * self.new.closed_blocks + self.new.block_len ≡ length bytes.now }
        ensures chunk_state { (mode : Mode) (number : ℕ)
            → h ≡ chaining_value_at mode number bytes.now ((length bytes.now - 1) / 64)
            → IsChunkState mode number (chunk_state_of self.new) bytes.now }
    {
        let blocks = (bytes.len() - 1) / BLOCK_LEN;
        self.h = h;
        self.block = [0; BLOCK_LEN];
        self.block_len = 0;
        self.closed_blocks = blocks;
        self.extend_block(&bytes[BLOCK_LEN * blocks..]);
    }

    pub(crate) fn len(&self) -> usize
        ensures { result ≡ 64 * self.now.closed_blocks + self.now.block_len }
    {
        BLOCK_LEN * self.closed_blocks + self.block_len
    }

    // Whether the open block has room for so many bytes.
    #[inline]
    pub(crate) fn has_room(&self, count: usize) -> bool
        ensures block { IsTrue result ↔ (self.now.block_len + count ≤ 64) }
        ensures chunk { IsTrue result → 64 * self.now.closed_blocks + self.now.block_len + count ≤ 1024 }
    {
        count <= BLOCK_LEN - self.block_len
    }

    // The node of the chunk as it is.
    #[inline]
    pub(crate) fn node(&self, mode: &Mode, number: u64) -> Node
        ensures { (bytes : List ℕ) → IsChunkState mode.now number (chunk_state_of self.now) bytes
            → result ≡ chunk_node mode.now number bytes }
    {
        Node {
            b: self.block_len as u32,
            ..last_block_node(mode, number, self.closed_blocks, &self.h, &self.block)
        }
    }

    // Closes the open block, which is full: a further byte comes.
    fn close_block(&mut self, mode: &Mode, number: u64)
        requires full { self.old.block_len ≡ 64 }
        requires chunk { 64 * self.old.closed_blocks + 64 < 1024 }
        ensures blocks { self.new.closed_blocks ≡ self.old.closed_blocks + 1 }
        ensures empty { self.new.block_len ≡ 0 }
        ensures bytes { (bytes : List ℕ) → HasBytes mode.now number (chunk_state_of self.old) bytes
            → HasBytes mode.now number (chunk_state_of self.new) bytes }
    {
        chain_onto(mode, number, self.closed_blocks, &mut self.h, &self.block);
        self.closed_blocks += 1;
        self.block = [0; BLOCK_LEN];
        self.block_len = 0;
    }

    // Appends bytes to the open block, which has room for them.
    pub(crate) fn extend_block(&mut self, piece: &[u8])
        requires block { self.old.block_len + length piece.now ≤ 64 }
        requires chunk { 64 * self.old.closed_blocks + self.old.block_len + length piece.now ≤ 1024 }
        ensures blocks { self.new.closed_blocks ≡ self.old.closed_blocks }
        ensures len { self.new.block_len ≡ self.old.block_len + length piece.now }
        ensures bytes { (mode : Mode) (number : ℕ) (bytes : List ℕ)
            → HasBytes mode number (chunk_state_of self.old) bytes
            → HasBytes mode number (chunk_state_of self.new) (bytes ++ piece.now) }
        ensures chunk_state { (mode : Mode) (number : ℕ) (bytes : List ℕ)
            → IsChunkState mode number (chunk_state_of self.old) bytes
            → IsChunkState mode number (chunk_state_of self.new) (bytes ++ piece.now) }
    {
        let end = self.block_len + piece.len();
        self.block[self.block_len..end].copy_from_slice(piece);
        self.block_len = end;
    }

    // The same of bytes that fill the block: none, where it is full, since a copy of none costs as much as one of a few.
    fn fill_block(&mut self, piece: &[u8])
        requires block { self.old.block_len + length piece.now ≡ 64 }
        requires chunk { 64 * self.old.closed_blocks + 64 ≤ 1024 }
        ensures blocks { self.new.closed_blocks ≡ self.old.closed_blocks }
        ensures len { self.new.block_len ≡ 64 }
        ensures bytes { (mode : Mode) (number : ℕ) (bytes : List ℕ)
            → HasBytes mode number (chunk_state_of self.old) bytes
            → HasBytes mode number (chunk_state_of self.new) (bytes ++ piece.now) }
    {
        if piece.is_empty() {
            return;
        }
        self.extend_block(piece);
    }

    // Appends bytes where the open block has none. All whole blocks but the last are closed as they stand in the
    // bytes; only the last is copied.
    fn append_blocks(&mut self, mode: &Mode, number: u64, bytes: &[u8])
        requires empty { self.old.block_len ≡ 0 }
        requires some { 0 < length bytes.now }
        requires chunk { 64 * self.old.closed_blocks + length bytes.now ≤ 1024 }
        ensures len { 64 * self.new.closed_blocks + self.new.block_len
            ≡ 64 * self.old.closed_blocks + length bytes.now }
        ensures some { 0 < self.new.block_len }
        ensures bytes { (before : List ℕ) → HasBytes mode.now number (chunk_state_of self.old) before
            → HasBytes mode.now number (chunk_state_of self.new) (before ++ bytes.now) }
    {
        let count = (bytes.len() - 1) / BLOCK_LEN;
        if count == 0 {
            self.extend_block(bytes);
            return;
        }
        let blocks = &bytes[..BLOCK_LEN * count];
        chain_onto(mode, number, self.closed_blocks, &mut self.h, blocks);
        self.closed_blocks += count;
        self.extend_block(&bytes[BLOCK_LEN * count..]);
    }

    // Appends bytes to the chunk. A full block is closed only when a further byte comes, so that it can
    // be the last.
    #[inline(always)]
    pub(crate) fn append(&mut self, mode: &Mode, number: u64, bytes: &[u8])
        requires { 64 * self.old.closed_blocks + self.old.block_len + length bytes.now ≤ 1024 }
        ensures len { 64 * self.new.closed_blocks + self.new.block_len
            ≡ 64 * self.old.closed_blocks + self.old.block_len + length bytes.now }
        ensures chunk_state { (before : List ℕ) → IsChunkState mode.now number (chunk_state_of self.old) before
            → IsChunkState mode.now number (chunk_state_of self.new) (before ++ bytes.now) }
    {
        if self.has_room(bytes.len()) {
            self.extend_block(bytes);
            return;
        }
        self.append_past_block(mode, number, bytes);
    }

    // The same of bytes that the open block has no room for.
    #[inline(always)]
    fn append_past_block(&mut self, mode: &Mode, number: u64, bytes: &[u8])
        requires more { 64 < self.old.block_len + length bytes.now }
        requires chunk { 64 * self.old.closed_blocks + self.old.block_len + length bytes.now ≤ 1024 }
        ensures len { 64 * self.new.closed_blocks + self.new.block_len
            ≡ 64 * self.old.closed_blocks + self.old.block_len + length bytes.now }
        ensures chunk_state { (before : List ℕ) → IsChunkState mode.now number (chunk_state_of self.old) before
            → IsChunkState mode.now number (chunk_state_of self.new) (before ++ bytes.now) }
    {
        if self.block_len == 0 {
            self.append_blocks(mode, number, bytes);
            return;
        }
        let room = BLOCK_LEN - self.block_len;
        self.fill_block(&bytes[..room]);
        self.close_block(mode, number);
        self.append_blocks(mode, number, &bytes[room..]);
    }
}
