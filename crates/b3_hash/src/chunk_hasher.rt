// The hash of an input whose last chunk is at hand by its bytes (BLAKE3 (2020), 5.1).

ghost use Rattle.std.specs.Prelude.{◌≡◌, ℕ, ◌+◌, ◌*◌, ◌%◌, ◌^◌, ◌<◌, ◌≤◌, ◌↔◌, [], ◌++◌, List, IsTrue, length};

use crate::open_chunk::OpenChunk;
use crate::subtree_stack::SubtreeStack;
use crate::window::Window;
use b3_core::{CHUNK_LEN, Mode, Node, top};
use std::marker::Model;

// The number of the last chunk that an input may have: it has fewer than 2^64 bytes.
const LAST_CHUNK: u64 = (1 << 54) - 1;

// A mode, the chunks that are closed, and the last one, which is open. There may also be no last chunk
// yet: then it is one of no bytes.
#[derive(Drop)]
pub(crate) struct ChunkHasher {
    mode: Mode,
    closed: SubtreeStack,
    last: OpenChunk,
}

impl Model for ChunkHasher {
    ghost use Rattle.b3_hash.specs.ChunkHashers.{ChunkHasherState};

    ghost Value = { ChunkHasherState };

    ghost use Rattle.std.specs.Prelude.{◌+◌, ◌*◌, ◌^◌, ◌<◌};
    ghost use Rattle.b3_hash.specs.Private.{chunk_state_of};

    ghost view = { λ s. record {
      mode = s.mode;
      count = s.closed.chunks;
      stack = s.closed.values.items;
      chunk_state = chunk_state_of s.last;
    } };

    ghost invariant = { λ s. 1024 * s.closed.chunks + (64 * s.last.closed_blocks + s.last.block_len) < 2 ^ 64 };
}

impl ChunkHasher {
    ghost use Rattle.b3_core.specs.Tree.{top};
    ghost use Rattle.b3_hash.specs.ChunkHashers.{EndsWithChunk, IsAllClosed, chunks_len};
    ghost use Rattle.b3_hash.specs.Hashers.{EndsWith, window_len};
    ghost use Rattle.b3_hash.specs.OpenChunks.{chunk_state_len};
    ghost use Rattle.b3_hash.specs.Private.{HasValidWindow};

    // Of no bytes.
    pub(crate) fn new(mode: Mode) -> ChunkHasher
        ensures mode { result.mode ≡ mode }
        ensures ends_with { EndsWithChunk result [] }
        ensures len { chunks_len result ≡ 0 }
    {
        let closed = SubtreeStack::new();
        let last = OpenChunk::new(&mode);
        ChunkHasher { mode, closed, last }
    }

    // The same hasher.
    pub(crate) fn copied(&self) -> ChunkHasher
        ensures { result ≡ self.now }
    {
        ChunkHasher {
            mode: self.mode,
            closed: self.closed.copied(),
            last: self.last,
        }
    }

    pub(crate) fn mode(&self) -> Mode
        ensures { result ≡ self.now.mode }
    {
        self.mode
    }

    // The number of bytes.
    pub(crate) fn len(&self) -> u64
        ensures { result ≡ chunks_len self.now }
    {
        CHUNK_LEN as u64 * self.closed.chunks + self.last.len() as u64
    }

    // Takes in the next bytes: first as many as the open chunk has room for. Hands back the last window,
    // where the bytes then end with one.
    fn append(&mut self, input: &[u8]) -> Option<Window>
        requires { chunks_len self.old + length input.now < 2 ^ 64 }
        ensures mode { self.new.mode ≡ self.old.mode }
        ensures len { chunks_len self.new + window_len result ≡ chunks_len self.old + length input.now }
        ensures valid_window { HasValidWindow self.new result }
        ensures ends_with { (before : List ℕ) → EndsWithChunk self.old before
            → EndsWith self.new result (before ++ input.now) }
    {
        let filled = self.last.len();
        if filled == 0 {
            return self.append_chunks(input);
        }
        let (front, rest) = input.split_at(input.len().min(CHUNK_LEN - filled));
        self.extend_chunk(front);
        // Where no byte is left, the chunk stays open, also a full one: it may be the root.
        if rest.is_empty() {
            return None;
        }
        self.close_chunk();
        self.append_chunks(rest)
    }

    // How many bytes the open chunk has room for.
    #[inline]
    pub(crate) fn room(&self) -> usize
        ensures { chunk_state_len self.now.chunk_state + result ≡ 1024 }
    {
        CHUNK_LEN - self.last.len()
    }

    // Whether the open block has room for so many bytes, and the input too. Where it may have 2^64 bytes then, it is not looked
    // any closer.
    #[inline]
    pub(crate) fn has_room_in_block(&self, count: usize) -> bool
        ensures block { IsTrue result → length self.now.chunk_state.block + count ≤ 64 }
        ensures chunk { IsTrue result → chunk_state_len self.now.chunk_state + count ≤ 1024 }
        ensures input { IsTrue result → chunks_len self.now + count < 2 ^ 64 }
    {
        self.closed.chunks < LAST_CHUNK && self.last.has_room(count)
    }

    // Takes in bytes that the open block has room for: a copy of them, and no more. It is not inlined, so that an update for
    // which this is not all saves no registers for it.
    #[inline(never)]
    pub(crate) fn extend_block(&mut self, front: &[u8])
        requires block { length self.old.chunk_state.block + length front.now ≤ 64 }
        requires room { chunk_state_len self.old.chunk_state + length front.now ≤ 1024 }
        requires fits { chunks_len self.old + length front.now < 2 ^ 64 }
        ensures mode { self.new.mode ≡ self.old.mode }
        ensures len { chunks_len self.new ≡ chunks_len self.old + length front.now }
        ensures chunk_state { chunk_state_len self.new.chunk_state
            ≡ chunk_state_len self.old.chunk_state + length front.now }
        ensures ends_with { (before : List ℕ) → EndsWithChunk self.old before
            → EndsWithChunk self.new (before ++ front.now) }
    {
        self.last.extend_block(front);
    }

    // Takes in bytes of the open chunk. It is inlined with all that it does, as short pieces feel each call.
    #[inline(always)]
    pub(crate) fn extend_chunk(&mut self, front: &[u8])
        requires room { chunk_state_len self.old.chunk_state + length front.now ≤ 1024 }
        requires fits { chunks_len self.old + length front.now < 2 ^ 64 }
        ensures mode { self.new.mode ≡ self.old.mode }
        ensures len { chunks_len self.new ≡ chunks_len self.old + length front.now }
        ensures chunk_state { chunk_state_len self.new.chunk_state
            ≡ chunk_state_len self.old.chunk_state + length front.now }
        ensures ends_with { (before : List ℕ) → EndsWithChunk self.old before
            → EndsWithChunk self.new (before ++ front.now) }
    {
        self.last.append(&self.mode, self.closed.chunks, front);
    }

    // Closes the open chunk, which is full.
    fn close_chunk(&mut self)
        requires { chunk_state_len self.old.chunk_state ≡ 1024 }
        ensures mode { self.new.mode ≡ self.old.mode }
        ensures len { chunks_len self.new ≡ chunks_len self.old }
        ensures empty { chunk_state_len self.new.chunk_state ≡ 0 }
        ensures closed { (input : List ℕ) → EndsWithChunk self.old input → IsAllClosed self.new input }
    {
        let value = self.last.node(&self.mode, self.closed.chunks).chaining();
        self.closed.push(&self.mode, value, 0);
        self.last = OpenChunk::new(&self.mode);
    }

    // Takes in bytes where the open chunk has none, and hands back the last window, where they end with one.
    // After closed chunks there has to be a byte, since one of them would else be the last.
    fn append_chunks(&mut self, input: &[u8]) -> Option<Window>
        requires empty { chunk_state_len self.old.chunk_state ≡ 0 }
        requires fits { chunks_len self.old + length input.now < 2 ^ 64 }
        ensures mode { self.new.mode ≡ self.old.mode }
        ensures len { chunks_len self.new + window_len result ≡ chunks_len self.old + length input.now }
        ensures valid_window { HasValidWindow self.new result }
        ensures ends_with { (before : List ℕ) → IsAllClosed self.old before
            → (0 < self.old.count → 0 < length input.now) → EndsWith self.new result (before ++ input.now) }
    {
        let last = self.closed.push_all_but_last(&self.mode, input);
        if last.level > 0 {
            let node = top(&self.mode, self.closed.chunks, last.bytes);
            return Some(Window {
                node,
                level: last.level,
            });
        }
        if let Some(h) = last.reached {
            self.last.begin(h, last.bytes);
            return None;
        }
        self.last.append(&self.mode, self.closed.chunks, last.bytes);
        None
    }

    // Takes in the last window so far, where there is one, and then the next bytes, of which there is at least one. Hands back
    // the last window, where the bytes end with one.
    #[inline]
    pub(crate) fn append_after(&mut self, window: &Option<Window>, input: &[u8]) -> Option<Window>
        requires valid_window { HasValidWindow self.old window.now }
        requires some { 0 < length input.now }
        requires fits { chunks_len self.old + window_len window.now + length input.now < 2 ^ 64 }
        ensures mode { self.new.mode ≡ self.old.mode }
        ensures len { chunks_len self.new + window_len result
            ≡ chunks_len self.old + window_len window.now + length input.now }
        ensures valid_window { HasValidWindow self.new result }
        ensures ends_with { (before : List ℕ) → EndsWith self.old window.now before
            → EndsWith self.new result (before ++ input.now) }
    {
        match window {
            Some(window) => {
                self.push_subtree(&window.node, window.level);
                self.append_chunks(input)
            }
            None => self.append(input),
        }
    }

    // Closes the last chunk, which is full, if there is one.
    pub(crate) fn close_last(&mut self)
        requires { chunks_len self.old % 1024 ≡ 0 }
        ensures mode { self.new.mode ≡ self.old.mode }
        ensures len { chunks_len self.new ≡ chunks_len self.old }
        ensures empty { chunk_state_len self.new.chunk_state ≡ 0 }
        ensures closed { (input : List ℕ) → EndsWithChunk self.old input → IsAllClosed self.new input }
    {
        if self.last.len() != 0 {
            self.close_chunk();
        }
    }

    // Takes in the next 2^level chunks by the node of their subtree, where the open chunk has no bytes.
    pub(crate) fn push_subtree(&mut self, node: &Node, level: u32)
        requires empty { chunk_state_len self.old.chunk_state ≡ 0 }
        requires level { level < 54 }
        requires fits { 1024 * (self.old.count + 2 ^ level) < 2 ^ 64 }
        requires aligned { self.old.count % 2 ^ level ≡ 0 }
        ensures mode { self.new.mode ≡ self.old.mode }
        ensures count { self.new.count ≡ self.old.count + 2 ^ level }
        ensures empty { chunk_state_len self.new.chunk_state ≡ 0 }
        ensures closed { (before bytes : List ℕ) → IsAllClosed self.old before → length bytes ≡ 1024 * 2 ^ level
            → node.now ≡ top self.old.mode self.old.count bytes → IsAllClosed self.new (before ++ bytes) }
    {
        self.closed.push(&self.mode, node.chaining(), level);
    }

    // Whether no chunk is closed.
    #[inline]
    pub(crate) fn has_none_closed(&self) -> bool
        ensures { IsTrue result ↔ (self.now.count ≡ 0) }
    {
        self.closed.chunks == 0
    }

    // The node of the root, where no chunk is closed: that of the open one.
    #[inline]
    pub(crate) fn only_node(&self) -> Node
        requires { self.now.count ≡ 0 }
        ensures { (input : List ℕ) → EndsWithChunk self.now input → result ≡ top self.now.mode 0 input }
    {
        self.last.node(&self.mode, 0)
    }

    // The node of the root.
    pub(crate) fn root(&self) -> Node
        ensures { (input : List ℕ) → EndsWithChunk self.now input → result ≡ top self.now.mode 0 input }
    {
        let last = self.last.node(&self.mode, self.closed.chunks);
        self.closed.root(&self.mode, last)
    }

    // The node of the root over the closed chunks and the chunks after them, by the node of these: they
    // are at most as many as some level has, and the closed ones a multiple of that level's.
    pub(crate) fn root_over(&self, last: Node) -> Node
        ensures { (level : ℕ) (before bytes : List ℕ) → level ≤ 54 → self.now.count % 2 ^ level ≡ 0
            → IsAllClosed self.now before → last ≡ top self.now.mode self.now.count bytes
            → length bytes ≤ 1024 * 2 ^ level → (0 < self.now.count → 0 < length bytes)
            → result ≡ top self.now.mode 0 (before ++ bytes) }
    {
        self.closed.root(&self.mode, last)
    }
}
