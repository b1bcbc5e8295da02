// The incremental hash of an input (BLAKE3 (2020), 5.1).

ghost use Rattle.std.specs.Prelude.{◌≡◌, ℕ, ◌+◌, ◌*◌, ◌/◌, ◌%◌, ◌^◌, ◌<◌, ◌≤◌, ◌↔◌, [], ◌++◌, List, None, Some};
ghost use Rattle.std.specs.Prelude.{codes, length, IsErr, IsTrue, OnErr, OnOk};

use crate::chunk_hasher::ChunkHasher;
use crate::output::Xof;
use crate::subtree_stack::subtree_len;
use crate::window::Window;
use b3_core::{Mode, Node};
use std::error::Error;
use std::fmt;
use std::marker::Model;

/// Refusal 1 of this crate: the input would have 2^64 bytes or more.
#[derive(Clone, Copy, Debug, PartialEq, Eq)]
pub struct TooLong;

impl fmt::Display for TooLong {
    ghost output = { λ _. Some (codes "the input has 2^64 bytes or more") };

    fn fmt<W: fmt::Write>(&self, f: &mut fmt::Formatter<W>) -> fmt::Result {
        write!(f, "the input has 2^64 bytes or more")
    }
}

impl Error for TooLong {}

/// Why a window is refused. The numbers are those of this crate's refusals.
#[derive(Clone, Copy, Debug, PartialEq, Eq)]
pub enum WindowFault {
    /// The level is over 53, or the input so far is no multiple of the window's length.
    Unaligned = 3,
    /// The input would have 2^64 bytes or more.
    TooLong = 4,
}

impl fmt::Display for WindowFault {
    ghost use Rattle.b3_hash.specs.Hashers.{window_fault_text};

    ghost output = { λ fault. Some (window_fault_text fault) };

    fn fmt<W: fmt::Write>(&self, f: &mut fmt::Formatter<W>) -> fmt::Result {
        match self {
            WindowFault::Unaligned => write!(f, "the window is at no multiple of its length"),
            WindowFault::TooLong => write!(f, "the input has 2^64 bytes or more"),
        }
    }
}

impl Error for WindowFault {}

/// The hash of an input that comes piece by piece, of any lengths, and in windows: runs of whole chunks
/// whose nodes are already made (BLAKE3 (2020), 5.1).
///
/// No call takes memory. The last chunk, or the last subtree, stays open until a further byte comes, since
/// it may be the root.
#[derive(Drop)]
pub struct Hasher {
    chunks: ChunkHasher,
    window: Option<Window>,
}

// Shows no key: neither the mode nor what was made from it.
impl fmt::Debug for Hasher {
    fn fmt<W: fmt::Write>(&self, f: &mut fmt::Formatter<W>) -> fmt::Result {
        f.debug_struct("Hasher")
            .field("len", &self.len())
            .finish_non_exhaustive()
    }
}

impl Model for Hasher {
    ghost use Rattle.b3_hash.specs.Hashers.{HasherState};
    ghost use Rattle.b3_hash.specs.Private.{HasValidWindow};

    ghost Value = { HasherState };

    ghost view = { λ s. record { chunks = s.chunks; window = s.window } };

    ghost invariant = { λ s. HasValidWindow s.chunks s.window };
}

impl Hasher {
    ghost use Rattle.b3_core.specs.Tree.{top};
    ghost use Rattle.b3_hash.specs.ChunkHashers.{IsAllClosed, chunks_len};
    ghost use Rattle.b3_hash.specs.Hashers.{StandsFor, length_of, mode_of, push_answer};
    ghost use Rattle.b3_hash.specs.OpenChunks.{chunk_state_len};

    /// A hasher of an input in this mode, of which no bytes have come.
    pub fn new(mode: Mode) -> Hasher
        ensures mode { mode_of result ≡ mode }
        ensures stands_for { StandsFor result [] }
        ensures len { length_of result ≡ 0 }
    {
        Hasher {
            chunks: ChunkHasher::new(mode),
            window: None,
        }
    }

    /// Starts over, with an input in the same mode of which no bytes have come.
    pub fn reset(&mut self)
        ensures mode { mode_of self.new ≡ mode_of self.old }
        ensures stands_for { StandsFor self.new [] }
        ensures len { length_of self.new ≡ 0 }
    {
        *self = Hasher::new(self.chunks.mode());
    }

    /// The number of bytes that have come, those of windows with them.
    pub fn len(&self) -> u64
        ensures value { result ≡ length_of self.now }
        ensures stands_for { (input : List ℕ) → StandsFor self.now input → result ≡ length input }
    {
        match self.window {
            Some(window) => self.chunks.len() + subtree_len(window.level),
            None => self.chunks.len(),
        }
    }

    /// Takes in the next bytes of the input. Refused where the input would then have 2^64 bytes or
    /// more: the hasher stays as it was, and can go on.
    pub fn update(&mut self, input: &[u8]) -> Result<(), TooLong>
        ensures too_long { IsErr result ↔ (2 ^ 64 ≤ length_of self.old + length input.now) }
        ensures ok { OnOk result ((before : List ℕ) → StandsFor self.old before
            → StandsFor self.new (before ++ input.now)) }
        ensures len { OnOk result (length_of self.new ≡ length_of self.old + length input.now) }
        ensures mode { mode_of self.new ≡ mode_of self.old }
        ensures unchanged { OnErr result (self.new ≡ self.old) }
    {
        if self.has_room_in_block(input.len()) {
            self.chunks.extend_block(input);
            return Ok(());
        }
        self.update_past_block(input)
    }

    // The same of bytes that the open block may have no room for. It is not inlined, so that little is done where it has.
    #[inline(never)]
    fn update_past_block(&mut self, input: &[u8]) -> Result<(), TooLong>
        ensures too_long { IsErr result ↔ (2 ^ 64 ≤ length_of self.old + length input.now) }
        ensures ok { OnOk result ((before : List ℕ) → StandsFor self.old before
            → StandsFor self.new (before ++ input.now)) }
        ensures len { OnOk result (length_of self.new ≡ length_of self.old + length input.now) }
        ensures mode { mode_of self.new ≡ mode_of self.old }
        ensures unchanged { OnErr result (self.new ≡ self.old) }
    {
        if input.len() as u64 > u64::MAX - self.len() {
            return Err(TooLong);
        }
        self.append(input);
        Ok(())
    }

    // Whether the open block takes so many bytes: there is no window, and it has room for them.
    #[inline]
    fn has_room_in_block(&self, count: usize) -> bool
        ensures none { IsTrue result → self.now.window ≡ None }
        ensures block { IsTrue result → length self.now.chunks.chunk_state.block + count ≤ 64 }
        ensures chunk { IsTrue result → chunk_state_len self.now.chunks.chunk_state + count ≤ 1024 }
        ensures input { IsTrue result → chunks_len self.now.chunks + count < 2 ^ 64 }
    {
        self.window.is_none() && self.chunks.has_room_in_block(count)
    }

    // Takes in the next bytes; a window is closed only where there is one.
    fn append(&mut self, input: &[u8])
        requires { length_of self.old + length input.now < 2 ^ 64 }
        ensures mode { mode_of self.new ≡ mode_of self.old }
        ensures len { length_of self.new ≡ length_of self.old + length input.now }
        ensures stands_for { (before : List ℕ) → StandsFor self.old before
            → StandsFor self.new (before ++ input.now) }
    {
        if self.has_room_in_chunk(input.len()) {
            self.chunks.extend_chunk(input);
            return;
        }
        if input.is_empty() {
            return;
        }
        self.append_past_chunk(input);
    }

    // The same where there is a window, or the open chunk has no room for the bytes. It is not inlined, so that little is
    // done where it has.
    #[inline(never)]
    fn append_past_chunk(&mut self, input: &[u8])
        requires some { 0 < length input.now }
        requires fits { length_of self.old + length input.now < 2 ^ 64 }
        ensures mode { mode_of self.new ≡ mode_of self.old }
        ensures len { length_of self.new ≡ length_of self.old + length input.now }
        ensures stands_for { (before : List ℕ) → StandsFor self.old before
            → StandsFor self.new (before ++ input.now) }
    {
        // A window is stored only where there is one: to store the answer as it is would copy the place of one each time.
        match self.chunks.append_after(&self.window, input) {
            Some(last) => self.window = Some(last),
            None => self.window = None,
        }
    }

    // Whether the open chunk takes so many bytes: there is no window, and it has room for them.
    #[inline]
    fn has_room_in_chunk(&self, count: usize) -> bool
        ensures none { IsTrue result → self.now.window ≡ None }
        ensures room { IsTrue result → chunk_state_len self.now.chunks.chunk_state + count ≤ 1024 }
    {
        self.window.is_none() && count <= self.chunks.room()
    }

    /// Takes in the next 2^level chunks of the input, a window, by the node of their subtree: their
    /// [`top`](b3_core::top), with the number of their first chunk. Refused, in this order, where the
    /// window is [`Unaligned`](WindowFault::Unaligned) or makes the input
    /// [`TooLong`](WindowFault::TooLong): the hasher stays as it was, and can go on.
    pub fn push_window(&mut self, node: Node, level: u32) -> Result<(), WindowFault>
        ensures answer { result ≡ push_answer level (length_of self.old) }
        ensures ok { OnOk result ((before window : List ℕ) → StandsFor self.old before
            → length window ≡ 1024 * 2 ^ level
            → node ≡ top (mode_of self.old) (length before / 1024) window
            → StandsFor self.new (before ++ window)) }
        ensures len { OnOk result (length_of self.new ≡ length_of self.old + 1024 * 2 ^ level) }
        ensures mode { mode_of self.new ≡ mode_of self.old }
        ensures unchanged { OnErr result (self.new ≡ self.old) }
    {
        if level > 53 {
            return Err(WindowFault::Unaligned);
        }
        let size = subtree_len(level);
        let len = self.len();
        if len % size != 0 {
            return Err(WindowFault::Unaligned);
        }
        if size > u64::MAX - len {
            return Err(WindowFault::TooLong);
        }
        self.push_aligned(node, level);
        Ok(())
    }

    // Takes in a window that is aligned and fits.
    fn push_aligned(&mut self, node: Node, level: u32)
        requires level { level < 54 }
        requires aligned { length_of self.old % (1024 * 2 ^ level) ≡ 0 }
        requires fits { length_of self.old + 1024 * 2 ^ level < 2 ^ 64 }
        ensures stands_for { (before window : List ℕ) → StandsFor self.old before
            → length window ≡ 1024 * 2 ^ level
            → node ≡ top (mode_of self.old) (length_of self.old / 1024) window
            → StandsFor self.new (before ++ window) }
        ensures len { length_of self.new ≡ length_of self.old + 1024 * 2 ^ level }
        ensures mode { mode_of self.new ≡ mode_of self.old }
    {
        self.close_last();
        self.window = Some(Window { node, level });
    }

    // Closes what is still open: the window, or the last chunk, which is full.
    fn close_last(&mut self)
        requires { length_of self.old % 1024 ≡ 0 }
        ensures mode { mode_of self.new ≡ mode_of self.old }
        ensures len { chunks_len self.new.chunks ≡ length_of self.old }
        ensures none { self.new.window ≡ None }
        ensures empty { chunk_state_len self.new.chunks.chunk_state ≡ 0 }
        ensures closed { (input : List ℕ) → StandsFor self.old input → IsAllClosed self.new.chunks input }
    {
        match self.window {
            Some(window) => {
                self.window = None;
                self.chunks.push_subtree(&window.node, window.level);
            }
            None => self.chunks.close_last(),
        }
    }

    /// The output of the input so far, from its first byte on (BLAKE3 (2020), 2.6). The hasher stays as
    /// it is, and can go on.
    pub fn finish(&self) -> Xof
        ensures output { (input : List ℕ) → StandsFor self.now input
            → result ≡ record { node = top (mode_of self.now) 0 input; place = 0 } }
        ensures one_output { (input other : List ℕ) → StandsFor self.now input → StandsFor self.now other
            → top (mode_of self.now) 0 input ≡ top (mode_of self.now) 0 other }
    {
        // With no closed chunk the last node is the root. It is written once, where it is to stand.
        if self.chunks.has_none_closed() {
            if let Some(window) = self.window {
                return Xof::from_node(window.node);
            }
            return Xof::from_node(self.chunks.only_node());
        }
        Xof::from_node(self.root())
    }

    // The node of the root of the input so far.
    #[inline(never)]
    pub(crate) fn root(&self) -> Node
        ensures { (input : List ℕ) → StandsFor self.now input → result ≡ top (mode_of self.now) 0 input }
    {
        match self.window {
            Some(window) => self.chunks.root_over(window.node),
            None => self.chunks.root(),
        }
    }

    /// The output of the input so far and a last window after it, by the window's node; the hasher stays
    /// as it is. The window has at most as many chunks as some level, of which the input so far is a whole
    /// number of windows, and it has no bytes only where the input has none so far.
    pub fn finish_with(&self, last: Node) -> Xof
        requires { length_of self.now % 1024 ≡ 0 }
        ensures { (level : ℕ) (before window : List ℕ) → StandsFor self.now before
            → level ≤ 54 → length before % (1024 * 2 ^ level) ≡ 0
            → length window ≤ 1024 * 2 ^ level → (0 < length before → 0 < length window)
            → last ≡ top (mode_of self.now) (length before / 1024) window
            → result ≡ record { node = top (mode_of self.now) 0 (before ++ window); place = 0 } }
    {
        let mut closed = self.copied();
        closed.close_last();
        Xof::from_node(closed.chunks.root_over(last))
    }

    // The same hasher.
    fn copied(&self) -> Hasher
        ensures { result ≡ self.now }
    {
        Hasher {
            chunks: self.chunks.copied(),
            window: self.window,
        }
    }
}
